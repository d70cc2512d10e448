use crate::script_of;
use std::alloc::{AllocError, Global};

const SCRIPT_OF_0: &str = "\
ring r = 32003,(x,y,a,b,z),dp;
matrix D[5][5];
D[1,3] = z; D[2,4] = z;
def H = nc_algebra(1,D);
setring H;
summary(75*z*a+91*y*z,32*z*z+51*z*y,35*y*a+41*b*z);
";

#[test]
fn script_of_0(rt: HostRuntime) -> Result<(), AllocError> {
    let script = script_of(rt.alloc(), 0)?;
    assert_eq!(rt; script.as_slice(), SCRIPT_OF_0.as_bytes());
    Ok(())
}

// How many lines follow the heading.
fn lines(alloc: Global, k: u32) -> Result<usize, AllocError> {
    let script = script_of(alloc, k)?;
    Ok(
        script
            .split(|byte| *byte == b'\n')
            .filter(|line| line.starts_with(b"summary("))
            .count(),
    )
}

#[test]
fn numbers_of_lines(rt: HostRuntime) -> Result<(), AllocError> {
    let alloc = rt.alloc();
    assert_eq!(rt; lines(alloc, 19)?, 20);
    assert_eq!(rt; lines(alloc, 199)?, 200);
    assert_eq!(rt; lines(alloc, 4294967295)?, 96);
    Ok(())
}
