use wasmparser::error::Error;
use wasmparser::parser::Parser;
use wasmparser::payload::Payload;

pub fn print_sections<R: Print>(rt: &R, bytes: &[u8]) -> Result<(), Error> {
    for payload in Parser::new(0).parse_all(bytes) {
        let _ = match payload? {
            Payload::FunctionSection(section) => println!(rt; "{} functions", section.count()),
            Payload::CodeSectionEntry(body) => println!(rt; "a body at {}", body.range().start),
            Payload::CustomSection(custom) => println!(rt; "custom section {}", custom.name()),
            Payload::End(place) => println!(rt; "the end at {}", place),
            _ => Ok(()),
        };
    }
    Ok(())
}

#[test]
fn sections_are_printed(rt: HostRuntime) {
    let bytes = [
        0x00, 0x61, 0x73, 0x6d, 0x01, 0x00, 0x00, 0x00, 0x03, 0x01, 0x00,
    ];
    assert!(rt; print_sections(&rt, &bytes).is_ok());
    assert!(rt; print_sections(&rt, &[0x00, 0x61]).is_err());
}
