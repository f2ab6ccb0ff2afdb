//! The code of one hall, for all four.
//!
//! A hall's number is in the types of its parts (`Lock<N, 0>`, `Part<N, 0>`), so a call of the hall with a number that only a run knows stands in four
//! arms. They are written here once, and in each place one line says what is called.

/// Code for the hall that a number names (`HallNo`), or that a ticket is of (`OneOfFour(ticket)`): it gets the field and the name of that hall.
macro_rules! by_hall {
    ($which:expr, $names:ident $(($ticket:tt))?, $code:ident!($($given:tt)*)) => {
        match $which {
            $names::Zero $(($ticket))? => $code!(zero, Zero, $($given)*),
            $names::One $(($ticket))? => $code!(one, One, $($given)*),
            $names::Two $(($ticket))? => $code!(two, Two, $($given)*),
            $names::Three $(($ticket))? => $code!(three, Three, $($given)*),
        }
    };
}

/// A call of what is one hall's, among what all four have.
macro_rules! of_hall {
    ($hall:ident, $name:ident, $four:ident.$call:ident($($arg:expr),*)) => {
        $four.$hall.$call($($arg),*)
    };
}

/// A turn of one hall, for the part that a seat has in it.
macro_rules! turn {
    ($hall:ident, $name:ident, $four:ident.$call:ident($rt:ident, $seat:ident, $($arg:expr),*)) => {
        $four.$hall.$call($rt, &mut $seat.$hall, $($arg),*)
    };
}

/// The sum of a number over all four.
macro_rules! in_all {
    ($four:ident.$($number:tt)*) => {
        $four.zero.$($number)* + $four.one.$($number)* + $four.two.$($number)* + $four.three.$($number)*
    };
}

pub(crate) use by_hall;
pub(crate) use in_all;
pub(crate) use of_hall;
pub(crate) use turn;
