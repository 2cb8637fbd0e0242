//! Names in quotation marks, as JSON writes them.
ghost use Rattle.std.specs.Prelude.{◌≡◌, ◌<◌, ◌≤◌, ◌∷◌, ◌++◌, ℕ, List, IfOk, IfSome, IsSomeAnd, OnOk};
ghost use Rattle.atlas_pack.specs.declared.quoted.Piece.{Piece};
ghost use Rattle.atlas_pack.specs.Quoted.{BeginsWithDigit, BeginsWithPiece, BeginsWithScalar, BeginsWithUnit, EndsPair};
ghost use Rattle.atlas_pack.specs.Quoted.{EndsQuoted, piece_bytes};

use std::alloc::{AllocError, Global};

// What stands between the quotation marks.
#[derive(Clone, Copy, Debug)]
pub enum Piece {
    // A byte that stands for itself, or one after a backslash.
    Byte(u8),
    // A character by its number.
    Scalar(char),
}

// What follows this byte at the front of a text.
pub fn after(byte: u8, text: &[u8]) -> Option<&[u8]>
    ensures found { IfSome result (λ rest. text.now ≡ byte ∷ rest.now) }
    ensures only { (rest : List ℕ) → text.now ≡ byte ∷ rest → IsSomeAnd result (λ r. r.now ≡ rest) }
{
    let (first, rest) = text.split_first()?;
    if *first == byte { Some(rest) } else { None }
}

// The hexadecimal digit at the front of a text, and what follows it.
fn digit(text: &[u8]) -> Option<(u32, &[u8])>
    ensures found { IfSome result (λ f. BeginsWithDigit text.now f.0 f.1.now) }
    ensures only { (d : ℕ) (rest : List ℕ) → BeginsWithDigit text.now d rest
        → IsSomeAnd result (λ f. (f.0 ≡ d) × (f.1.now ≡ rest)) }
    ensures small { IfSome result (λ f. f.0 < 16) }
{
    let (byte, rest) = text.split_first()?;
    let value = char::from(*byte).to_digit(16)?;
    Some((value, rest))
}

// The number that four hexadecimal digits write, and what follows them.
fn unit(text: &[u8]) -> Option<(u32, &[u8])>
    ensures found { IfSome result (λ f. BeginsWithUnit text.now f.0 f.1.now) }
    ensures only { (u : ℕ) (rest : List ℕ) → BeginsWithUnit text.now u rest
        → IsSomeAnd result (λ f. (f.0 ≡ u) × (f.1.now ≡ rest)) }
    ensures small { IfSome result (λ f. f.0 < 65536) }
{
    let (a, rest) = digit(text)?;
    let (b, rest) = digit(rest)?;
    let (c, rest) = digit(rest)?;
    let (d, rest) = digit(rest)?;
    Some((a * 4096 + b * 256 + c * 16 + d, rest))
}

// The character whose first half was read, and what follows its second half.
fn second_half(text: &[u8], high: u32) -> Option<(char, &[u8])>
    requires { (0xd800 ≤ high) × (high < 0xdc00) }
    ensures found { IfSome result (λ f. EndsPair high f.0 text.now f.1.now) }
    ensures only { (c : ℕ) (rest : List ℕ) → EndsPair high c text.now rest
        → IsSomeAnd result (λ f. (f.0 ≡ c) × (f.1.now ≡ rest)) }
{
    let text = after(b'\\', text)?;
    let text = after(b'u', text)?;
    let (low, rest) = unit(text)?;
    if low < 0xdc00 || 0xe000 <= low {
        return None;
    }
    let code = 0x10000 + (high - 0xd800) * 0x400 + (low - 0xdc00);
    Some((char::from_u32(code)?, rest))
}

// The character that the text after `\u` writes, and what follows it.
fn scalar(text: &[u8]) -> Option<(char, &[u8])>
    ensures found { IfSome result (λ f. BeginsWithScalar f.0 text.now f.1.now) }
    ensures only { (c : ℕ) (rest : List ℕ) → BeginsWithScalar c text.now rest
        → IsSomeAnd result (λ f. (f.0 ≡ c) × (f.1.now ≡ rest)) }
{
    let (unit, rest) = unit(text)?;
    if 0xd800 <= unit && unit < 0xdc00 {
        return second_half(rest, unit);
    }
    Some((char::from_u32(unit)?, rest))
}

// What the text after a backslash writes, and what follows it.
fn escaped(text: &[u8]) -> Option<(Piece, &[u8])>
    ensures found { IfSome result (λ f. BeginsWithPiece f.0 (92 ∷ text.now) f.1.now) }
    ensures only { (p : Piece) (rest : List ℕ) → BeginsWithPiece p (92 ∷ text.now) rest
        → IsSomeAnd result (λ f. (f.0 ≡ p) × (f.1.now ≡ rest)) }
{
    let (byte, rest) = text.split_first()?;
    if *byte == b'"' || *byte == b'\\' || *byte == b'/' {
        return Some((Piece::Byte(*byte), rest));
    }
    if *byte != b'u' {
        return None;
    }
    let (code, rest) = scalar(rest)?;
    Some((Piece::Scalar(code), rest))
}

// The first piece of a text, and what follows it. None where the text has ended or its quotation mark comes.
fn next_piece(text: &[u8]) -> Option<(Piece, &[u8])>
    ensures found { IfSome result (λ f. BeginsWithPiece f.0 text.now f.1.now) }
    ensures only { (p : Piece) (rest : List ℕ) → BeginsWithPiece p text.now rest
        → IsSomeAnd result (λ f. (f.0 ≡ p) × (f.1.now ≡ rest)) }
{
    let (byte, rest) = text.split_first()?;
    if *byte == b'"' {
        return None;
    }
    if *byte == b'\\' {
        return escaped(rest);
    }
    Some((Piece::Byte(*byte), rest))
}

// Adds what a piece stands for.
fn push(name: &mut Vec<u8>, piece: Piece) -> Result<(), AllocError>
    ensures { OnOk result (name.new.items ≡ name.old.items ++ piece_bytes piece) }
{
    match piece {
        Piece::Byte(byte) => {
            name.push(byte)?;
            Ok(())
        }
        Piece::Scalar(code) => {
            let mut buffer = [0; 4];
            name.extend_from_slice(code.encode_utf8(&mut buffer).as_bytes())
        }
    }
}

// What the text after a quotation mark stands for, up to the next one, and what follows that.
pub fn read_quoted(alloc: Global, text: &[u8]) -> Result<Option<(Vec<u8>, &[u8])>, AllocError>
    ensures found { IfOk result (λ found. IfSome found (λ f. EndsQuoted f.0.items text.now f.1.now)) }
    ensures only { (name rest : List ℕ) → EndsQuoted name text.now rest → IfOk result (λ found.
        IsSomeAnd found (λ f. (f.0.items ≡ name) × (f.1.now ≡ rest))) }
{
    let mut name = Vec::new(alloc);
    let mut rest = text;
    while let Some((piece, after)) = next_piece(rest) {
        push(&mut name, piece)?;
        rest = after;
    }
    match after(b'"', rest) {
        Some(end) => Ok(Some((name, end))),
        None => Ok(None),
    }
}
