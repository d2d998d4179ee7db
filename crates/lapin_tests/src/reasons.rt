//! What the program says on standard error of inputs that are not in the format: a table of cases, each with the words, the input, and
//! what is told. The status and the number of the line are those that the program itself gives.

mod cases;
mod driver;
mod help;
