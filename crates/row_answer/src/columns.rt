// What an answer tells in the columns of its row (docs/CHANRUN.md). Which of its numbers are columns is defined in specs/Told.antt, by its
// kind; it rests on `channel_answer`.
ghost use Rattle.row_answer.specs.Told.{columns_in, Tells};

use channel_answer::{
    AT, ATTENTION, DUE, EVENT, FRAMES, JOB, NUMBER, OPENED, PORTION, Told, number_told,
};

// The numbers of a row's columns: the first `count` of `numbers`.
#[derive(Clone, Copy)]
pub struct Columns {
    pub count: usize,
    pub numbers: [u64; 4],
}

// The columns of what an answer tells. A link, on which what was written goes out, has none, but that of a disconnect.
pub fn columns_of(x: Told) -> Columns
    ensures { Tells result.count result.numbers (columns_in x) }
{
    let kind = x.kind;
    if x.refusal == 17 {
        return Columns {
            count: 1,
            numbers: [x.first as u64, 0, 0, 0],
        };
    }
    if kind == AT {
        return Columns {
            count: 1,
            numbers: [x.first as u64, 0, 0, 0],
        };
    }
    if kind == OPENED {
        return Columns {
            count: 1,
            numbers: [1, 0, 0, 0],
        };
    }
    if kind == DUE {
        return Columns {
            count: 2,
            numbers: [x.first as u64, x.second as u64, 0, 0],
        };
    }
    if kind == FRAMES {
        return Columns {
            count: 1,
            numbers: [x.second as u64, 0, 0, 0],
        };
    }
    if kind == JOB {
        return Columns {
            count: 2,
            numbers: [x.second as u64, x.second as u64, 0, 0],
        };
    }
    if kind == ATTENTION {
        return Columns {
            count: 3,
            numbers: [x.first as u64, x.second as u64, x.third as u64, 0],
        };
    }
    if kind == NUMBER {
        return Columns {
            count: 1,
            numbers: [number_told(x), 0, 0, 0],
        };
    }
    if kind == EVENT {
        return Columns {
            count: 4,
            numbers: [
                x.first as u64,
                x.second as u64,
                x.third as u64,
                x.fourth as u64,
            ],
        };
    }
    if kind == PORTION {
        let full = x.third as u64;
        return Columns {
            count: 2,
            numbers: [x.second as u64, full, 0, 0],
        };
    }
    Columns {
        count: 0,
        numbers: [0; 4],
    }
}
