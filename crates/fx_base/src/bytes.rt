//! Comparison of bytes that are mostly few.
//!
//! The library sets out to compare many at a time, which takes a hundred instructions before the first.
ghost use Rattle.std.specs.Prelude.{◌≡◌, bytes_eq};
ghost use Rattle.std.specs.Ordering.{nat_cmp};
ghost use Rattle.std.specs.Cmp.Lexicographic.{slice_cmp};

use std::cmp::Ordering;

/// The most bytes that are compared one by one.
const FEW: usize = 32;

/// Whether the bytes are the same.
pub fn same_bytes(a: &[u8], b: &[u8]) -> bool
    ensures { result ≡ bytes_eq a.now b.now }
{
    if a.len() > FEW {
        return a == b;
    }
    let mut a = a;
    let mut b = b;
    'bytes: while let Some((x, c)) = a.split_first() {
        match b.split_first() {
            None => return false,
            Some((y, d)) => {
                if x != y {
                    return false;
                }
                a = c;
                b = d;
            }
        }
    }
    b.is_empty()
}

/// How the bytes are ordered: by the first that differ, and else the fewer first.
pub fn compare_bytes(a: &[u8], b: &[u8]) -> Ordering
    ensures { result ≡ slice_cmp nat_cmp a.now b.now }
{
    if a.len() > FEW {
        return a.cmp(b);
    }
    let mut a = a;
    let mut b = b;
    'bytes: while let Some((x, c)) = a.split_first() {
        match b.split_first() {
            None => return Ordering::Greater,
            Some((y, d)) => {
                match x.cmp(y) {
                    Ordering::Equal => {}
                    other => return other,
                }
                a = c;
                b = d;
            }
        }
    }
    if b.is_empty() {
        Ordering::Equal
    } else {
        Ordering::Less
    }
}
