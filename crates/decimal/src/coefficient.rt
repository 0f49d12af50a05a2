//! Whole numbers of at most 18 digits in front of their zeros.
ghost use Rattle.std.specs.Prelude.{◌≡◌, ◌%◌, ◌^◌, ◌<◌};

/// A whole number as fewer than 19 digits that do not end in 0, unless all is 0, and zeros behind them.
#[derive(Clone, Copy)]
pub(crate) struct Coefficient {
    pub(crate) digits: u64,
    pub(crate) zeros: u8,
    ghost short: { digits < 10 ^ 18 },
    ghost last: { digits % 10 ≡ 0 → digits ≡ 0 },
}
