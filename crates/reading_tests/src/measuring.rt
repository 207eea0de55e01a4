//! Numbers in thousandths.

use crate::rows::row;
use crate::shared::expect;
use nc_base::MAX_THOUSANDTHS;
use number_laws::number_laws;
use std::alloc::{AllocError, Global};
use std::process::Abort;
use std::test::Fail;
use units_um::{MAX_DIGITS, half_up, one_reading, thousandths};

/// In each row a text and its value in thousandths, or why it is refused. The rows are, in this order: Int and Real with their signs; half
/// away from zero; the limit; 38 and 39 digits; exponents of up to 37 digits; numbers of 18 and 19 digits, of which the shorter ones are
/// worked out in 64 bits; and texts that are no numbers.
const EDGES: &str = "0|0\n\
    5|5000\n\
    +5|5000\n\
    -5|-5000\n\
    007|7000\n\
    1.|1000\n\
    -0|0\n\
    -0.|0\n\
    0.5E1|5000\n\
    0.E-0|0\n\
    2147483647|2147483647000\n\
    +12.5|12500\n\
    1.E+2|100000\n\
    1.E2|100000\n\
    1.25E-1|125\n\
    -25.4E-03|-25\n\
    0.0005|1\n\
    -0.0005|-1\n\
    0.00049|0\n\
    -0.00049|0\n\
    0.0015|2\n\
    -0.0025|-3\n\
    0.0014999|1\n\
    5.E-4|1\n\
    -4.9E-4|0\n\
    0.0004999999999999999999999999999999999|0\n\
    0.0005000000000000000000000000000000000|1\n\
    1.E12|1000000000000000\n\
    -1.E12|-1000000000000000\n\
    1000000000000.0004|1000000000000000\n\
    1000000000000.0005|OutOfRange\n\
    999999999999.9995|1000000000000000\n\
    -1000000000000.0004|-1000000000000000\n\
    -1000000000000.0005|OutOfRange\n\
    1.E13|OutOfRange\n\
    1000000000001|OutOfRange\n\
    00000000000000000000000000000000000001|1000\n\
    000000000000000000000000000000000000001|NotNumber\n\
    99999999999999999999999999999999999999|OutOfRange\n\
    -1.0000000000000000000000000000000000000|-1000\n\
    -1.00000000000000000000000000000000000000|NotNumber\n\
    1.5E000000000000000000000000000000000001|15000\n\
    1.5E0000000000000000000000000000000000001|NotNumber\n\
    1.E9999999999999999999999999999999999999|OutOfRange\n\
    1.E-9999999999999999999999999999999999999|0\n\
    0.E9999999999999999999999999999999999999|0\n\
    0.E99999999999999999999999999999999999999|NotNumber\n\
    0.E99999|0\n\
    1.E-40|0\n\
    99999999999999999999999999999999999.E-38|1\n\
    000000000000000005|5000\n\
    0000000000000000005|5000\n\
    123456789.123456789|123456789123\n\
    123456789.123500000|123456789124\n\
    -123456789.1234999999|-123456789123\n\
    999999999999.999499|999999999999999\n\
    999999999999.9994999|999999999999999\n\
    999999999999999999.E-6|1000000000000000\n\
    999999999999999999.E-18|1000\n\
    999999999999999999.E-22|0\n\
    |NotNumber\n\
    +|NotNumber\n\
    +.5|NotNumber\n\
    -|NotNumber\n\
    --1|NotNumber\n\
    .|NotNumber\n\
    .5|NotNumber\n\
    1..|NotNumber\n\
    1.E|NotNumber\n\
    1.E+|NotNumber\n\
    1E5|NotNumber\n\
    1.e5|NotNumber\n\
    1.E5.|NotNumber\n\
    1 |NotNumber\n\
    \x201|NotNumber\n";

/// The value of a text, or why it is refused.
fn shown(alloc: Global, text: &str) -> Result<String, AllocError> {
    match thousandths(text.as_bytes()) {
        Ok(value) => value.to_string(alloc),
        Err(refusal) => format!(in alloc; "{refusal:?}"),
    }
}

fn expect_value(rt: &impl Abort, alloc: Global, text: &str, want: &str) -> Result<(), Fail> {
    let found = shown(alloc, text)?;
    assert_eq!(rt; found.as_str(), want, "of {text}");
    Ok(())
}

#[test]
fn edges(rt: HostRuntime) -> Result<(), Fail> {
    for line in EDGES.lines() {
        let (text, want) = row(line);
        expect_value(&rt, rt.alloc(), text, want)?;
    }
    Ok(())
}

#[test]
fn laws_of_numbers_can_be_cited() {
    one_reading();
    half_up();
    number_laws();
}

#[test]
fn limits(rt: HostRuntime) {
    expect(&rt, MAX_THOUSANDTHS, 1_000_000_000_000_000);
    expect(&rt, MAX_DIGITS, 38);
}
