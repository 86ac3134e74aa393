// What corrects a pollutant's column.
ghost use Rattle.logarithm.specs.Four.{Measured};

// The pollutant's value after running-in, and the first engine's measurement, each 1 to 9,999,999; 1 and 1 on a sheet without running-in.
// No Option: with 1 and 1 each formula holds without a case, for g(1) is 0, and a product with 1 is the number itself.
#[derive(Clone, Copy)]
pub struct Correction {
    pub value: u32,
    pub first: u32,
    pub ghost value_in_range: { Measured value },
    pub ghost first_in_range: { Measured first },
}
