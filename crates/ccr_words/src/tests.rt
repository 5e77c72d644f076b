use crate::{Form, form_of, workers_in};
use std::alloc::{AllocError, Global};
use std::test::Fail;

// The words of a row.
fn words(alloc: Global, row: &str) -> Result<Vec<String>, AllocError> {
    let mut list = Vec::new(alloc);
    for word in row.split_whitespace() {
        list.push(String::from_str(alloc, word)?)?;
    }
    Ok(list)
}

// Whether the words of the row ask for this form, and for so many workers.
fn asks(
    alloc: Global,
    row: &str,
    form: Option<Form>,
    workers: Option<u32>,
) -> Result<bool, AllocError> {
    let list = words(alloc, row)?;
    Ok(form_of(list.as_slice()) == form && workers_in(list.as_slice()) == workers)
}

#[test]
fn words_of_a_form_are_taken(rt: HostRuntime) -> Result<(), Fail> {
    let alloc = rt.alloc();
    assert!(rt; asks(alloc, "replay", Some(Form::Replay), None)?);
    let (seed, writes) = (7, 200_000);
    assert!(rt;
        asks(
            alloc,
            "sample 7 200000",
            Some(Form::Sample { seed, writes }),
            None
        )?
    );
    assert!(rt; asks(alloc, "run --workers 1", None, Some(1))?);
    assert!(rt; asks(alloc, "run --workers=64", None, Some(64))?);
    assert!(rt; asks(alloc, "run --workers 000000004", None, Some(4))?);
    Ok(())
}

const OF_NO_FORM: &str =
    "|replay extra|sample 7|sample 7 200001|sample 1234567890 1|sample x 1|run|run --workers|run --workers=|run --workers 0|run --workers 65|run --workers 4 4|run --worker 4|run -workers=4|run --workers +4|run workers 4";

#[test]
fn words_of_no_form_are_refused(rt: HostRuntime) -> Result<(), Fail> {
    for row in OF_NO_FORM.split('|') {
        assert!(rt; asks(rt.alloc(), row, None, None)?);
    }
    Ok(())
}
