//! Why a cache can't be made with some options.
use thiserror::Error;

/// What is wrong with the options of a cache.
#[derive(Clone, Copy, Debug, PartialEq, Eq, Error)]
pub enum OptionsError {
    /// A side of `page` is below 1.
    #[error("a side of a new page is below 1")]
    EmptyPage,
    /// A side of `largest_page` is less than that of `page`.
    #[error("the largest page is smaller than a new one")]
    LargestPage,
    /// `pages` is 0.
    #[error("no pages are allowed")]
    NoPages,
    /// `padding` is below 0.
    #[error("the padding is below 0")]
    Padding,
    /// An alignment of `atlas` is below 1, or its thresholds are out of order.
    #[error("the options of the atlas are not valid")]
    Atlas,
    /// Not even a size of 1 by 1, with the padding and rounded up to the alignment, fits `largest_page`.
    #[error("nothing fits the largest page with its padding")]
    NothingFits,
}
