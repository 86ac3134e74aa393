// A pollutant's column of a sheet whose measurements are in range.
ghost use Rattle.layout.specs.Sizes.{width_is};
ghost use Rattle.fours.specs.Fours.{MeasuredRange};

use layout::Size;

// A pollutant's column of a sheet: its engines begin at record `start`, and `rows` of them are looked at. They lie in the bytes, and the pollutant's
// measurement in each is 1 to 9,999,999.
#[derive(Clone, Copy)]
pub struct MeasuredColumn<'a> {
    pub size: Size,
    pub bytes: &'a [u8],
    pub start: usize,
    pub number: u32,
    pub rows: usize,
    pub ghost in_range: { MeasuredRange (width_is size) bytes.now start number rows },
}
