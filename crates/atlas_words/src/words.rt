//! The words of a line, and the numbers that they spell.
ghost use Rattle.std.specs.Prelude.{◌≡◌, ◌<◌, ℕ, ℤ, List, Some, IfSome, IsSomeAnd};
ghost use Rattle.atlas_model.specs.declared.geometry.Size.{Size};
ghost use Rattle.atlas_model.specs.declared.options.AllocatorOptions.{AllocatorOptions};
ghost use Rattle.atlas_words.specs.Grammar.{SpellsUnsigned, SpellsNumber, SpellsSize, SpellsAtlas, SpellsId};
ghost use Rattle.atlas_words.specs.Lines.{BeginsWithLine};
ghost use Rattle.atlas_words.specs.Words.{BeginsWithWord, BeginsWithNumber, BeginsWithSize, SpellsOptions};

use atlas_model::{AllocId, AllocatorOptions, DEFAULT_OPTIONS, Size, size2};

/// The bytes before the first space, all of them where there is none, and the rest from that space on. For programs
/// that read lines of their own, such as `atlas_bench`. It takes no memory.
pub fn first_word(text: &[u8]) -> (&[u8], &[u8])
    ensures { BeginsWithWord text.now result.0.now result.1.now }
{
    for (i, byte) in text.iter().enumerate() {
        if *byte == b' ' {
            return text.split_at(i);
        }
    }
    text.split_at(text.len())
}

/// The bytes before the first LF, all of them where there is none, and those after it. For programs that read lines of
/// their own, such as `atlas_bench`. It takes no memory.
pub fn first_line(text: &[u8]) -> (&[u8], &[u8])
    ensures { BeginsWithLine text.now result.0.now result.1.now }
{
    for (i, byte) in text.iter().enumerate() {
        if *byte == b'\n' {
            return (&text[..i], &text[i + 1..]);
        }
    }
    (text, &[])
}

/// The number that one or more decimal digits write, where it fits a `u32`; None for every other text. For programs
/// that read lines of their own, such as `atlas_bench`. It takes no memory.
pub fn unsigned(text: &[u8]) -> Option<u32>
    ensures found { IfSome result (λ n. SpellsUnsigned n text.now) }
    ensures only { (n : ℕ) → SpellsUnsigned n text.now → result ≡ Some n }
{
    if text.is_empty() {
        return None;
    }
    let mut value: u32 = 0;
    let mut rest = text;
    while let Some((byte, tail)) = rest.split_first() {
        if !byte.is_ascii_digit() {
            return None;
        }
        value = value.checked_mul(10)?.checked_add(u32::from(*byte - b'0'))?;
        rest = tail;
    }
    Some(value)
}

/// The number that an optional `-` and decimal digits write, where it fits an `i32`.
pub fn number(text: &[u8]) -> Option<i32>
    ensures found { IfSome result (λ z. SpellsNumber z text.now) }
    ensures only { (z : ℤ) → SpellsNumber z text.now → result ≡ Some z }
{
    let (first, digits) = text.split_first()?;
    if *first == b'-' {
        return i32::try_from(-i64::from(unsigned(digits)?)).ok();
    }
    i32::try_from(unsigned(text)?).ok()
}

/// The number that a space and a word spell, and what follows them.
pub fn number_argument(text: &[u8]) -> Option<(i32, &[u8])>
    ensures found { IfSome result (λ found. BeginsWithNumber text.now found.0 found.1.now) }
    ensures only { (z : ℤ) (rest : List ℕ) → BeginsWithNumber text.now z rest
        → IsSomeAnd result (λ found. (found.0 ≡ z) × (found.1.now ≡ rest)) }
{
    let (first, after) = text.split_first()?;
    if *first != b' ' {
        return None;
    }
    let (word, rest) = first_word(after);
    Some((number(word)?, rest))
}

/// The size that two numbers spell, each after one space, and what follows them.
pub fn size_argument(text: &[u8]) -> Option<(Size, &[u8])>
    ensures found { IfSome result (λ found. BeginsWithSize text.now found.0 found.1.now) }
    ensures only { (size : Size) (rest : List ℕ) → BeginsWithSize text.now size rest
        → IsSomeAnd result (λ found. (found.0 ≡ size) × (found.1.now ≡ rest)) }
{
    let (width, rest) = number_argument(text)?;
    let (height, rest) = number_argument(rest)?;
    Some((size2(width, height), rest))
}

/// The size that two numbers spell, each after one space.
pub fn size_arguments(text: &[u8]) -> Option<Size>
    ensures found { IfSome result (λ size. SpellsSize size text.now) }
    ensures only { (size : Size) → SpellsSize size text.now → result ≡ Some size }
{
    let (size, rest) = size_argument(text)?;
    if rest.is_empty() { Some(size) } else { None }
}

/// The size and the options that two or six numbers spell, each after one space.
pub fn atlas_arguments(text: &[u8]) -> Option<(Size, AllocatorOptions)>
    ensures found { IfSome result (λ found. SpellsAtlas found.0 found.1 text.now) }
    ensures only { (size : Size) (options : AllocatorOptions) → SpellsAtlas size options text.now
        → IsSomeAnd result (λ found. (found.0 ≡ size) × (found.1 ≡ options)) }
{
    let (size, rest) = size_argument(text)?;
    if rest.is_empty() {
        return Some((size, DEFAULT_OPTIONS));
    }
    Some((size, options_arguments(rest)?))
}

// The options that four numbers spell, each after one space.
fn options_arguments(text: &[u8]) -> Option<AllocatorOptions>
    ensures found { IfSome result (λ options. SpellsOptions options text.now) }
    ensures only { (options : AllocatorOptions) → SpellsOptions options text.now → result ≡ Some options }
{
    let (alignment, rest) = size_argument(text)?;
    let thresholds = size_arguments(rest)?;
    Some(AllocatorOptions {
        alignment,
        small_size_threshold: thresholds.width,
        large_size_threshold: thresholds.height,
    })
}

/// The id that a space and decimal digits spell.
pub fn id_argument(text: &[u8]) -> Option<AllocId>
    ensures found { IfSome result (λ id. SpellsId id text.now) }
    ensures only { (id : ℕ) → SpellsId id text.now → result ≡ Some id }
{
    let (space, word) = text.split_first()?;
    if *space != b' ' {
        return None;
    }
    Some(AllocId::deserialize(unsigned(word)?))
}
