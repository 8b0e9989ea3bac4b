//! The values of DECIMAL columns.

ghost use Rattle.std.specs.Prelude.{◌≡◌, true};
ghost use Rattle.blog_value.specs.Decimals.{is_decimal};

use crate::decimal_groups::is_decimal;

/// A value of a DECIMAL column.
#[derive(Clone, Copy, Debug, PartialEq, Eq)]
pub struct Decimal<'a> {
    /// How many digits the column has, from 1 to 65.
    pub precision: u8,
    /// How many of them are behind the point.
    pub scale: u8,
    /// The bytes as they are stored.
    pub bytes: &'a [u8],
    pub ghost valid: { is_decimal precision scale bytes.now ≡ true },
}

impl<'a> Decimal<'a> {
    ghost use Rattle.std.specs.Prelude.{option_map};
    ghost use Rattle.blog_value.specs.Decimals.{decimal_of};
    ghost use Rattle.blog_value.specs.code.DecimalView.{decimal_value};

    /// Returns the value of a column with that many digits, `scale` of them behind the point. Returns None if the bytes
    /// aren't one: there are too few or too many, or a group of them has more digits than it is for.
    #[tactic(auto, unfolding(crate::specs::Decimals::decimal_of))]
    pub fn read(precision: u8, scale: u8, bytes: &'a [u8]) -> Option<Self>
        ensures { option_map decimal_value result ≡ decimal_of precision scale bytes.now }
    {
        if is_decimal(precision, scale, bytes) {
            Some(Decimal {
                precision,
                scale,
                bytes,
            })
        } else {
            None
        }
    }
}
