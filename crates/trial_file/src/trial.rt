/// A change of the opening situation.
#[derive(Clone, Copy, Debug, PartialEq, Eq)]
pub enum Trial {
    /// Another limit of shift, 0 to 3.
    Shift(u8),
    /// One closure more, behind those that stand: its first second, up to 172,799, and the first second behind it, up to
    /// 172,800.
    Close(u32, u32),
}
