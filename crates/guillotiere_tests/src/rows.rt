//! All rows are played by two tests: a test is proved as two functions.

use crate::playing::{play_all, play_all_again, play_all_with_refusals};
use crate::{
    atlas_freeing, atlas_grants, atlas_growth, atlas_rearranging, atlas_starts, session_rows,
};
use guillotiere::AtlasError;
use std::alloc::Global;
use std::process::Abort;
use std::test::Fail;

fn play_tables(rt: &impl Abort, alloc: Global) -> Result<(), AtlasError> {
    play_all_with_refusals(rt, alloc, &atlas_grants::ROWS)?;
    play_all_with_refusals(rt, alloc, &atlas_freeing::ROWS)?;
    play_all_with_refusals(rt, alloc, &atlas_growth::ROWS)?;
    play_all_with_refusals(rt, alloc, &atlas_rearranging::ROWS)?;
    play_all_with_refusals(rt, alloc, &atlas_starts::ROWS)?;
    play_all_with_refusals(rt, alloc, &session_rows::ROWS)
}

// Each with every request for memory refused in turn, and then with none refused.
#[test]
fn rows(rt: HostRuntime) -> Result<(), Fail> {
    play_tables(&rt, rt.alloc())?;
    Ok(())
}

#[test]
fn rows_without_memory(rt: HostRuntime) -> Result<(), Fail> {
    play_all(&rt, rt.alloc(), &atlas_freeing::ROWS_WITHOUT_MEMORY)?;
    play_all(&rt, rt.alloc(), &atlas_starts::ROWS_WITHOUT_MEMORY)?;
    Ok(())
}

fn play_tables_again(rt: &impl Abort, alloc: Global) -> Result<(), AtlasError> {
    play_all_again(rt, alloc, &atlas_grants::ROWS)?;
    play_all_again(rt, alloc, &atlas_freeing::ROWS)?;
    play_all_again(rt, alloc, &atlas_growth::ROWS)?;
    play_all_again(rt, alloc, &atlas_rearranging::ROWS)?;
    play_all_again(rt, alloc, &atlas_starts::ROWS)?;
    play_all_again(rt, alloc, &session_rows::ROWS)
}

// Each over an atlas that was kept as data and made again.
#[test]
fn rows_of_atlases_that_were_kept(rt: HostRuntime) -> Result<(), Fail> {
    play_tables_again(&rt, rt.alloc())?;
    Ok(())
}
