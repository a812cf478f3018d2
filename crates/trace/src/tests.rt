// Examples of heads: good ones, and one for each field that is wrong.
use crate::head::{Kind, read_head};
use crate::lines::Line;
use memory::refusals::Refusal;
use std::test::Fail;

// The kind of memory and the number of cells in a head, or why it has none.
fn named(bytes: &[u8]) -> Result<(Kind, usize), Refusal> {
    let head = read_head(bytes)?;
    Ok((head.kind, head.size.cells()))
}

#[test]
fn a_head_names_the_memory_and_its_size(rt: HostRuntime) {
    assert_eq!(rt; named(&[1, 0, 0, 0, 8, 2, 0, 2]), Ok((Kind::Words, 2)));
    assert_eq!(rt; named(&[1, 0, 0, 0, 9, 3, 1, 0, 80]), Ok((Kind::Page, 256)));
}

#[test]
fn every_wrong_field_is_refused(rt: HostRuntime) {
    let wrong = [
        // the version
        [0, 0, 0, 0, 8, 2, 0, 2],
        // the length
        [1, 0, 0, 0, 9, 2, 0, 2],
        [1, 8, 0, 0, 0, 2, 0, 2],
        // the kind of memory
        [1, 0, 0, 0, 8, 0, 0, 2],
        [1, 0, 0, 0, 8, 4, 0, 2],
        // the number of cells
        [1, 0, 0, 0, 8, 2, 0, 1],
        [1, 0, 0, 0, 8, 2, 0, 3],
        [1, 0, 0, 0, 8, 2, 2, 0],
    ];
    for head in wrong {
        assert_eq!(rt; read_head(&head), Err(Refusal::TraceHead));
    }
}

#[test]
fn a_trace_has_8_to_65536_bytes(rt: HostRuntime) -> Result<(), Fail> {
    assert_eq!(rt; read_head(&[1, 0, 0, 0, 7, 2, 0]), Err(Refusal::TraceHead));
    let mut trace = vec![in rt.alloc(); 0u8; 65_537]?;
    let bytes = trace.as_mut_slice();
    assert!(rt; bytes.len() == 65_537);
    bytes[0..8].copy_from_slice(&[1, 0, 1, 0, 1, 2, 0, 2]);
    assert_eq!(rt; read_head(bytes), Err(Refusal::TraceHead));
    bytes[0..8].copy_from_slice(&[1, 0, 1, 0, 0, 2, 0, 2]);
    assert_eq!(rt; named(&bytes[0..65_536]), Ok((Kind::Words, 2)));
    Ok(())
}

#[test]
fn a_fault_has_its_number_and_place(rt: HostRuntime) -> Result<(), Fail> {
    let line = Line::from(Refusal::TraceHead).to_string(rt.alloc())?;
    assert_eq!(rt; line.as_str(), "fault 14 0");
    Ok(())
}
