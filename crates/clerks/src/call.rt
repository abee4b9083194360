// A call of a clerk's list, with its arguments. The lists of a load are lent one by one, as `load` is lent them.
#[derive(Clone, Copy)]
pub enum Call<'a, F> {
    Unit,
    Load {
        rows: &'a [u32],
        columns: &'a [u32],
        figures: &'a [F],
    },
    Add {
        first: usize,
        second: usize,
    },
    Multiply {
        first: usize,
        second: usize,
    },
    Flip {
        sheet: usize,
    },
    Strike,
}
