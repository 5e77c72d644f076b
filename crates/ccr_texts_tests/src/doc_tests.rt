use ccr_doc::{Doc, Field, Scalar, compact, shares_token, tokens};
use std::alloc::{AllocError, Global};
use std::test::Fail;

/// In each line a source, and behind a bar its fields with their values or why it is refused.
const SOURCES: &str = r#"{} |
{"b":{"c":[1,null,"x"]},"a.d":true} | a.d:true b.c:1 b.c:'x'
{"a":1,"a":-2} | a:-2
{"a":[{"b":1},{"b":[[2]]}]} | a.b:1 a.b:2
{"n":9223372036854775807} | n:9223372036854775807
{"a":[[[[[[[[[[[[[[[[[[[1]]]]]]]]]]]]]]]]]]]} | a:1
{"a":[[[[[[[[[[[[[[[[[[[[1.5]]]]]]]]]]]]]]]]]]]]} | more than 20 objects and lists stand inside one another
{"n":1.5 | the source is no JSON in UTF-8
{"n":1}{} | the source is no JSON in UTF-8
[1.5] | the source is no object
{"n":1.0} | a number is not a whole number of 64 bits with a sign
{"n":[1e2]} | a number is not a whole number of 64 bits with a sign
{"o":{"n":-0}} | a number is not a whole number of 64 bits with a sign
{"n":9223372036854775808} | a number is not a whole number of 64 bits with a sign"#;

/// In each line a text, and behind a bar its words.
const TEXTS: &str = r#"-- |
Red apple-pie | red apple pie
snake_case 7 | snake case 7
ÄRGER x | Ärger x"#;

fn value_text(alloc: Global, value: &Scalar) -> Result<String, AllocError> {
    match value {
        Scalar::Text(text) => {
            let text = text.as_str();
            format!(in alloc; "'{text}'")
        }
        Scalar::Number(number) => number.to_string(alloc),
        Scalar::Truth(truth) => truth.to_string(alloc),
    }
}

fn field_text(alloc: Global, field: &Field) -> Result<String, AllocError> {
    let value = value_text(alloc, &field.value.copy(alloc)?)?;
    let (name, value) = (field.name.as_str(), value.as_str());
    format!(in alloc; " {name}:{value}")
}

fn shown(alloc: Global, document: &Doc) -> Result<String, AllocError> {
    let mut line = String::new(alloc);
    for field in document.fields() {
        line.push_str(field_text(alloc, field)?.as_str())?;
    }
    Ok(line)
}

fn answer(alloc: Global, source: &[u8]) -> Result<String, AllocError> {
    match Doc::read(alloc, source) {
        Ok(document) => shown(alloc, &document),
        Err(bad) => bad.to_string(alloc),
    }
}

/// Whether the source of a line has the answer behind the bar.
fn is_as_said(alloc: Global, line: &str) -> Result<bool, AllocError> {
    let (source, want) = line.split_once(" |").unwrap_or(("", ""));
    Ok(answer(alloc, source.as_bytes())?.as_str().trim() == want.trim())
}

#[test]
fn a_source_has_its_fields_or_its_first_refusal(rt: HostRuntime) -> Result<(), Fail> {
    for line in SOURCES.lines() {
        assert!(rt; is_as_said(rt.alloc(), line)?, "{line}");
    }
    Ok(())
}

/// The answer to a source whose compact text has this many bytes more than 8.
fn long_answer(alloc: Global, bytes: usize) -> Result<String, AllocError> {
    let text = "x".repeat(alloc, bytes)?;
    let text = text.as_str();
    let source = format!(in alloc; "{{\"a\":\"{text}\"}}")?;
    answer(alloc, source.as_bytes())
}

#[test]
fn a_source_has_at_most_524288_bytes(rt: HostRuntime) -> Result<(), Fail> {
    assert_eq!(rt; long_answer(rt.alloc(), 524_280)?.as_str().len(), 524_285);
    assert_eq!(rt;
        long_answer(rt.alloc(), 524_281)?.as_str(),
        "the compact text has more than 524,288 bytes"
    );
    Ok(())
}

#[test]
fn the_compact_text_is_in_order_of_names(rt: HostRuntime) -> Result<(), Fail> {
    let text = compact(
        rt.alloc(),
        b" { \"b\" : 1 , \"a\" : [ 1, null ] , \"b\": 2 } ",
    )?;
    assert_eq!(rt; text.as_str(), "{\"a\":[1,null],\"b\":2}");
    Ok(())
}

/// The words of a text, each behind a space.
fn words(alloc: Global, text: &str) -> Result<Vec<u8>, AllocError> {
    let mut line = Vec::new(alloc);
    for token in &tokens(alloc, text)? {
        line.push(b' ')?;
        line.extend_from_slice(token.copy(alloc)?.as_bytes())?;
    }
    Ok(line)
}

/// Whether the text of a line has the words behind the bar.
fn has_words(alloc: Global, line: &str) -> Result<bool, AllocError> {
    let (text, want) = line.split_once(" |").unwrap_or(("", ""));
    Ok(words(alloc, text)?.as_slice() == want.as_bytes())
}

#[test]
fn tokens_are_runs_in_lower_case(rt: HostRuntime) -> Result<(), Fail> {
    for line in TEXTS.lines() {
        assert!(rt; has_words(rt.alloc(), line)?, "{line}");
    }
    assert!(rt; shares_token("Red apple-pie", "PIE!"));
    assert!(rt; !shares_token("Ärger", "ärger"));
    Ok(())
}
