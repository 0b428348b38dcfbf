// What is asked of the kernel.

ghost use Rattle.std.specs.Prelude.{◌≡◌};
ghost use Rattle.kern_base.specs.Checks.{IsPost};

use crate::Service;

/// A call, with the four words of `a0` to `a3`. For `OSPendMulti`, `table` is true exactly where the
/// count is 1 to 8, the address of the table is a multiple of 4 and the table lies wholly in RAM; then
/// `n_ids` is the count, and `ids` are the first words of its entries. Otherwise `n_ids` is 0.
#[derive(Clone, Copy, Debug, PartialEq, Eq)]
pub struct Request {
    pub service: Service,
    pub args: [u32; 4],
    pub ids: [u32; 8],
    pub n_ids: u8,
    pub table: bool,
}

/// A post: a call of one of the six services that interrupt code may use.
#[derive(Clone, Copy, Debug, PartialEq, Eq)]
pub struct Post {
    pub service: Service,
    pub args: [u32; 4],
    pub ghost posts: { IsPost service },
}
