//! The properties of a message: each setter sets its own property and no other.
use crate::texts::short;
use lapin_types::{BasicProperties, FieldTable, ShortString};
use std::alloc::Global;
use std::test::Fail;

/// The properties that are texts.
const TEXTS: [&str; 10] = [
    "content_type",
    "content_encoding",
    "correlation_id",
    "reply_to",
    "expiration",
    "message_id",
    "kind",
    "user_id",
    "app_id",
    "cluster_id",
];

// Properties of which one text alone is set.
fn with_text(name: &str, value: ShortString) -> BasicProperties {
    let none = BasicProperties::default();
    match name {
        "content_type" => none.with_content_type(value),
        "content_encoding" => none.with_content_encoding(value),
        "correlation_id" => none.with_correlation_id(value),
        "reply_to" => none.with_reply_to(value),
        "expiration" => none.with_expiration(value),
        "message_id" => none.with_message_id(value),
        "kind" => none.with_kind(value),
        "user_id" => none.with_user_id(value),
        "app_id" => none.with_app_id(value),
        _ => none.with_cluster_id(value),
    }
}

fn text_of<'a>(name: &str, properties: &'a BasicProperties) -> Option<&'a ShortString> {
    match name {
        "content_type" => properties.content_type(),
        "content_encoding" => properties.content_encoding(),
        "correlation_id" => properties.correlation_id(),
        "reply_to" => properties.reply_to(),
        "expiration" => properties.expiration(),
        "message_id" => properties.message_id(),
        "kind" => properties.kind(),
        "user_id" => properties.user_id(),
        "app_id" => properties.app_id(),
        _ => properties.cluster_id(),
    }
}

// Whether a text is the name of its property where that is set, and none where it isn't.
fn tells(properties: &BasicProperties, name: &str, is_set: bool) -> bool {
    match text_of(name, properties) {
        Some(text) => is_set && text.as_str() == name,
        None => !is_set,
    }
}

// Whether of properties with one text that text alone is set, and no number and no header.
fn is_alone(alloc: Global, name: &str) -> Result<bool, Fail> {
    let properties = with_text(name, short(alloc, name)?);
    let mut alone = has_no_number(&properties) && properties.headers().is_none();
    for other in TEXTS {
        alone = alone && tells(&properties, other, other == name);
    }
    Ok(alone)
}

fn has_no_number(properties: &BasicProperties) -> bool {
    properties.delivery_mode().is_none()
        && properties.priority().is_none()
        && properties.timestamp().is_none()
}

fn has_no_text(properties: &BasicProperties) -> bool {
    let mut none = true;
    for name in TEXTS {
        none = none && text_of(name, properties).is_none();
    }
    none
}

#[test]
fn a_text_is_set_alone(rt: HostRuntime) -> Result<(), Fail> {
    for name in TEXTS {
        assert!(rt; is_alone(rt.alloc(), name)?, "{name}");
    }
    Ok(())
}

#[test]
fn numbers_and_headers_are_set(rt: HostRuntime) {
    let properties = BasicProperties::default()
        .with_delivery_mode(2)
        .with_priority(9)
        .with_timestamp(1234567890123)
        .with_headers(FieldTable::new(rt.alloc()));
    assert!(rt; properties.delivery_mode() == Some(2));
    assert!(rt; properties.priority() == Some(9));
    assert!(rt; properties.timestamp() == Some(1234567890123));
    assert!(rt;
        properties
            .headers()
            .is_some_and(|headers| headers.len() == 0)
    );
    assert!(rt; has_no_text(&properties));
}
