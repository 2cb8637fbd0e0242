//! What the lines of a text ask for.
ghost use Rattle.std.specs.Prelude.{◌≡◌, IfErr, IfOk};
ghost use Rattle.atlas_pack.specs.Settings.{goes_together, has_pages};
ghost use Rattle.atlas_pack.specs.Jobs.{AsksFor, IsJobFault, Sets, IsSetFault};
ghost use Rattle.std.specs.Prelude.{◌≤◌};

use crate::error::PackError;
use crate::names::check_names;
use crate::reading::read_sprites;
use crate::settings::{DEFAULT_SETTINGS, Settings, read_settings};
use crate::sprites::Sprite;
use atlas_words::words::{first_line, first_word};
use std::alloc::Global;

/// What the lines of a text ask for.
#[derive(Drop)]
pub struct Job {
    /// What the sheet keeps to, and how it is written.
    pub settings: Settings,
    /// The sprites, in the order of their lines.
    pub sprites: Vec<Sprite>,
    /// How many lines come before those of the sprites: 1 where the first line sets something, else 0.
    pub before: usize,
}

// Whether `pages` stands with neither `fill` nor `dense` nor `json`.
fn goes_together(settings: Settings) -> bool
    ensures { result ≡ goes_together settings }
{
    settings.pages.is_none() || (!settings.fill && (!settings.dense && !settings.json))
}

// Whether `group` stands with `pages`, where it stands.
fn has_pages(settings: Settings) -> bool
    ensures { result ≡ has_pages settings }
{
    !settings.group || settings.pages.is_some()
}

// What the first line sets, how many lines do, and the lines after it.
fn read_first(text: &[u8]) -> Result<(Settings, usize, &[u8]), PackError>
    ensures set { IfOk result (λ first. Sets text.now first.1 first.0 first.2.now) }
    ensures few { IfOk result (λ first. first.1 ≤ 1) }
    ensures fault { IfErr result (λ e. IsSetFault text.now e) }
{
    let (line, rest) = first_line(text);
    let (word, words) = first_word(line);
    if word != b"sheet".as_slice() {
        return Ok((DEFAULT_SETTINGS, 0, text));
    }
    let Some(settings) = read_settings(words) else {
        return Err(PackError::BadSettings);
    };
    if !goes_together(settings) {
        return Err(PackError::NotTogether);
    }
    if !has_pages(settings) {
        return Err(PackError::NoPages);
    }
    Ok((settings, 1, rest))
}

/// What the lines of a text ask for: settings, if the first line begins with the word `sheet`, and then a sprite each.
///
/// `BadSettings` if the words after `sheet` are none; `NotTogether` if `pages` is given with `fill`, `dense` or `json`;
/// `NoPages` if `group` is given without `pages`; `BadLine` names the first line that is no sprite; `Twice` names the
/// first line whose name is on an earlier one; `Memory` if memory is refused.
pub fn read_job(alloc: Global, text: &[u8]) -> Result<Job, PackError>
    ensures asks { IfOk result (λ job. AsksFor text.now job.before job.settings job.sprites.items) }
    ensures few { IfOk result (λ job. job.before ≤ 1) }
    ensures fault { IfErr result (λ e. IsJobFault text.now e) }
{
    let (settings, before, rest) = read_first(text)?;
    let sprites = read_sprites(alloc, rest, before)?;
    check_names(alloc, &sprites, before)?;
    Ok(Job {
        settings,
        sprites,
        before,
    })
}
