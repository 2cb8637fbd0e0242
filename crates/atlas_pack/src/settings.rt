//! What the first line may set.
ghost use Rattle.std.specs.Prelude.{◌≡◌, ℕ, List, [], ◌∷◌, Some, IfSome, IsSomeAnd};
ghost use Rattle.atlas_pack.specs.declared.settings.Setting.{Setting};
ghost use Rattle.atlas_pack.specs.Settings.{BeginsWithSetting, SpellsSettings, arguments, with_setting, changed_by};
ghost use Rattle.atlas_pack.specs.Settings.{setting_name};
ghost use Rattle.atlas_pack.specs.Settings.{from_zero, setting_alone, setting_with_number, setting_with_numbers};

use atlas_model::{Size, size2};
use atlas_words::words::{first_word, number_argument};

/// Which sheets are allowed, in pixels.
#[derive(Clone, Copy, Debug, PartialEq, Eq)]
pub enum Sheets {
    /// `one W H`: this size alone.
    One(Size),
    /// `squares LEAST GREATEST`: squares with a side of these numbers or between them.
    Squares { least: i32, greatest: i32 },
    /// `powers GREATEST`: each side a power of two, up to this one.
    Powers { greatest: i32 },
    /// `width W GREATEST`: this width, and a height up to the second number.
    Heights { width: i32, greatest: i32 },
}

/// What one setting sets.
#[derive(Clone, Copy, Debug, PartialEq, Eq)]
pub enum Setting {
    /// Which sheets are allowed.
    Allowed(Sheets),
    /// `padding N`: how many pixels at least lie between two sprites, and between a sprite and the border.
    Padding(u16),
    /// `align W H`: the sides on whose multiples places begin, with their padding.
    Align(Size),
    /// `turn`: sprites may lie turned by 90 degrees.
    Turn,
    /// `effort N`: how many changes of the order are tried.
    Effort(u32),
    /// `seed N`: where the row of random changes begins.
    Seed(u32),
    /// `fill`: as many sprites are placed as the greatest sheet takes.
    Fill,
    /// `dense`: smaller sheets with no guillotine cuts are tried as well.
    Dense,
    /// `json`: the sheet is written as JSON.
    Json,
    /// `pages N`: up to so many sheets take all sprites.
    Pages(u32),
    /// `group`: the sprites of a folder lie on one of these sheets.
    Group,
}

/// What a sheet keeps to, and how it is written.
#[derive(Clone, Copy, Debug, PartialEq, Eq)]
pub struct Settings {
    /// Which sheets are allowed.
    pub sheets: Sheets,
    /// How many pixels at least lie between two sprites, and between a sprite and the border.
    pub padding: u16,
    /// The sides on whose multiples places begin, with their padding.
    pub alignment: Size,
    /// Whether sprites may lie turned by 90 degrees.
    pub turn: bool,
    /// How many changes of the order are tried.
    pub effort: u32,
    /// Where the row of random changes begins.
    pub seed: u32,
    /// Whether as many sprites are placed as the greatest sheet takes, in place of all in a small one.
    pub fill: bool,
    /// Whether smaller sheets with no guillotine cuts are tried as well, where all sprites are packed.
    pub dense: bool,
    /// Whether the sheet is written as JSON.
    pub json: bool,
    /// Up to how many sheets take all sprites together; None for one sheet.
    pub pages: Option<u32>,
    /// Whether the sprites of a folder stay together on one of these sheets, where one takes them all.
    pub group: bool,
}

/// Powers of two up to 4096, no padding, alignment 1 in both directions, no turning, no changes of the order; as lines.
pub const DEFAULT_SETTINGS: Settings = Settings {
    sheets: Sheets::Powers { greatest: 4096 },
    padding: 0,
    alignment: Size {
        width: 1,
        height: 1,
    },
    turn: false,
    effort: 0,
    seed: 0,
    fill: false,
    dense: false,
    json: false,
    pages: None,
    group: false,
};

// The settings with one changed.
fn change(settings: &mut Settings, setting: Setting)
    ensures { settings.new ≡ with_setting settings.old setting }
{
    match setting {
        Setting::Allowed(sheets) => settings.sheets = sheets,
        Setting::Padding(pixels) => settings.padding = pixels,
        Setting::Align(size) => settings.alignment = size,
        Setting::Turn => settings.turn = true,
        Setting::Effort(changes) => settings.effort = changes,
        Setting::Seed(start) => settings.seed = start,
        Setting::Fill => settings.fill = true,
        Setting::Dense => settings.dense = true,
        Setting::Json => settings.json = true,
        Setting::Pages(most) => settings.pages = Some(most),
        Setting::Group => settings.group = true,
    }
}

// A number that isn't below 0.
fn from_zero(number: i32) -> Option<u32>
    ensures { result ≡ from_zero number }
{
    u32::try_from(number).ok()
}

// The setting of a word alone.
fn alone(word: &[u8]) -> Option<Setting>
    ensures found { IfSome result (λ s. (word.now ≡ setting_name s) × (arguments s ≡ [])) }
    ensures value { result ≡ setting_alone word.now }
{
    if word == b"turn".as_slice() {
        return Some(Setting::Turn);
    }
    if word == b"fill".as_slice() {
        return Some(Setting::Fill);
    }
    if word == b"dense".as_slice() {
        return Some(Setting::Dense);
    }
    if word == b"json".as_slice() {
        return Some(Setting::Json);
    }
    if word == b"group".as_slice() {
        return Some(Setting::Group);
    }
    None
}

// The setting of a word and a number.
fn with_number(word: &[u8], number: i32) -> Option<Setting>
    ensures found { IfSome result (λ s. (word.now ≡ setting_name s) × (arguments s ≡ number ∷ [])) }
    ensures value { result ≡ setting_with_number word.now number }
{
    if word == b"powers".as_slice() {
        return Some(Setting::Allowed(Sheets::Powers { greatest: number }));
    }
    if word == b"padding".as_slice() {
        let pixels = from_zero(number)?;
        return u16::try_from(pixels).ok().map(Setting::Padding);
    }
    if word == b"effort".as_slice() {
        return from_zero(number).map(Setting::Effort);
    }
    if word == b"seed".as_slice() {
        return from_zero(number).map(Setting::Seed);
    }
    if word == b"pages".as_slice() {
        return from_zero(number).map(Setting::Pages);
    }
    None
}

// The setting of a word and two numbers.
fn with_numbers(word: &[u8], first: i32, second: i32) -> Option<Setting>
    ensures found { IfSome result (λ s. (word.now ≡ setting_name s) × (arguments s ≡ first ∷ second ∷ [])) }
    ensures value { result ≡ setting_with_numbers word.now first second }
{
    if word == b"one".as_slice() {
        return Some(Setting::Allowed(Sheets::One(size2(first, second))));
    }
    if word == b"squares".as_slice() {
        return Some(Setting::Allowed(Sheets::Squares {
            least: first,
            greatest: second,
        }));
    }
    if word == b"width".as_slice() {
        return Some(Setting::Allowed(Sheets::Heights {
            width: first,
            greatest: second,
        }));
    }
    if word == b"align".as_slice() {
        return Some(Setting::Align(size2(first, second)));
    }
    None
}

// The setting that a text begins with, after a space, and what follows it.
fn next_setting(text: &[u8]) -> Option<(Setting, &[u8])>
    ensures found { IfSome result (λ found. BeginsWithSetting found.0 text.now found.1.now) }
    ensures only { (s : Setting) (rest : List ℕ) → BeginsWithSetting s text.now rest
        → IsSomeAnd result (λ found. (found.0 ≡ s) × (found.1.now ≡ rest)) }
{
    let (space, after) = text.split_first()?;
    if *space != b' ' {
        return None;
    }
    let (word, rest) = first_word(after);
    if let Some(setting) = alone(word) {
        return Some((setting, rest));
    }
    let (first, rest) = number_argument(rest)?;
    if let Some(setting) = with_number(word, first) {
        return Some((setting, rest));
    }
    let (second, rest) = number_argument(rest)?;
    Some((with_numbers(word, first, second)?, rest))
}

/// What settings, each after one space, change of `DEFAULT_SETTINGS`; of two of one kind the later one counts. None for
/// every other text.
pub fn read_settings(text: &[u8]) -> Option<Settings>
    ensures found { IfSome result (λ settings. (all : List Setting) × SpellsSettings all text.now
        × (settings ≡ changed_by DEFAULT_SETTINGS all)) }
    ensures only { (all : List Setting) → SpellsSettings all text.now
        → result ≡ Some (changed_by DEFAULT_SETTINGS all) }
{
    let mut settings = DEFAULT_SETTINGS;
    let mut rest = text;
    while !rest.is_empty() {
        let (setting, after) = next_setting(rest)?;
        change(&mut settings, setting);
        rest = after;
    }
    Some(settings)
}
