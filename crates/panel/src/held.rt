// What a panel holds.
use exchanges::fitting::Size;
use labels::slip::Slip;

// Agreement among boards, over memory that is lent to it: ten slots for each board q from place
// 10 * q, its estimate, its picks of phases 1 to 8, and its verdict. Nothing outside changes it but
// the calls.
#[derive(Drop)]
pub struct Panel<'a, L> {
    pub(crate) slots: &'a mut [Option<Slip<L>>],
    // none while the panel is not fitted
    pub(crate) size: Option<Size>,
    // how many phases have run
    pub(crate) phases: u8,
}
