//! Laws of the definitions.

ghost use Rattle.std.specs.Prelude.{◌≡◌, Some, true};
ghost use Rattle.byteorder.specs.Endian.{little_bytes};
ghost use Rattle.blog_value.specs.Dates.{date_of, is_date, packed};
ghost use Rattle.blog_value.specs.declared.dates.Date as date;

/// A date is read from the bytes that a DATE column has for it. The call does nothing.
pub fn dates_are_read()
    ensures { (d : date.Date) → is_date d ≡ true → date_of (little_bytes 3 (packed d)) ≡ Some d }
{}
