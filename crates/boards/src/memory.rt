// What a call is lent.
ghost use Rattle.std.specs.Prelude.{◌≤◌};

// So many words of a work table and of an output, full of a number.
#[derive(Clone, Copy)]
pub struct Lent {
    pub number: u32,
    pub work: usize,
    pub out: usize,
    ghost work_fits: { work ≤ 3072 },
    ghost out_fits: { out ≤ 20 },
}

impl Lent {
    pub const MOST_WORK: usize = 3072;

    pub const MOST_OUT: usize = 20;

    // All that there is.
    pub const ALL: Lent = Lent {
        number: 7,
        work: Lent::MOST_WORK,
        out: Lent::MOST_OUT,
    };
}
