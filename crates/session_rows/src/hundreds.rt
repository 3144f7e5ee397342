//! Objects of 100 bytes, which are the same ten tenfold: their puts, and the replies that have them.

/// The put of one.
macro_rules! put_hundred {
    ($name:literal, $ten:literal) => {
        concat!(
            "put ", $name, " 100\n", $ten, $ten, $ten, $ten, $ten, $ten, $ten, $ten, $ten, $ten,
            "\n"
        )
    };
}

/// The reply that has one.
macro_rules! data_hundred {
    ($ten:literal) => {
        concat!(
            "data 100\n", $ten, $ten, $ten, $ten, $ten, $ten, $ten, $ten, $ten, $ten, "\n"
        )
    };
}

pub(crate) use data_hundred;
pub(crate) use put_hundred;
