// The receipt of a click.

/// A receipt names the session whose click it is for. It can neither be dropped nor copied: a click that was opened has to
/// be committed or abandoned, and that spends its receipt.
pub struct Receipt {
    pub(crate) session: u32,
}
