//! Custom sections of any bytes.

use crate::written::writes;
use std::borrow::{CowSlice, CowStr};
use wasm_encoder_custom::custom_section::{CustomSection, RawCustomSection};

#[test]
fn a_custom_section(rt: HostRuntime) {
    let section = CustomSection {
        name: CowStr::Borrowed("ab"),
        data: CowSlice::Borrowed(b"xyz"),
    };
    assert!(rt; writes(rt.alloc(), &section, "00 06 02 61 62 78 79 7a"));
}

#[test]
fn a_raw_custom_section(rt: HostRuntime) {
    let section = RawCustomSection(b"\x82\x00\x01a");
    assert!(rt; writes(rt.alloc(), &section, "00 82 00 01 61"));
}
