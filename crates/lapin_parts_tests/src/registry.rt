//! The registry of a channel: what completed declares, binds, unbinds and deletes add up to.
use crate::script::{Part, Words, runs};
use crate::texts::{said, short, unread};
use lapin_registry::{BindingDefinition, Bindings, ExchangeDefinition, QueueDefinition, Registry};
use lapin_types::{
    AMQPValue, ExchangeDeclareOptions, ExchangeKind, FieldTable, QueueDeclareOptions,
};
use std::alloc::Global;
use std::test::Fail;

impl Part for Registry {
    fn answer(&mut self, alloc: Global, call: &Words) -> Result<String, Fail> {
        match call.name {
            "declare-queue" => declare_queue(self, alloc, call)?,
            "declare-exchange" => declare_exchange(self, alloc, call)?,
            "bind-queue" => bind_queue(self, alloc, call)?,
            "bind-exchange" => bind_exchange(self, alloc, call)?,
            "unbind-queue" => unbind_queue(self, alloc, call)?,
            "unbind-exchange" => unbind_exchange(self, alloc, call)?,
            "delete-queue" => self.deregister_queue(call.first),
            "delete-exchange" => self.deregister_exchange(call.first),
            "clear" => self.clear(),
            "queues" => return or_none(alloc, queues(alloc, self)?),
            "exchanges" => return or_none(alloc, exchanges(alloc, self)?),
            _ => return unread(alloc),
        }
        said(alloc, "done")
    }
}

fn declare_queue(registry: &mut Registry, alloc: Global, call: &Words) -> Result<(), Fail> {
    let name = short(alloc, call.first)?;
    let options = QueueDeclareOptions {
        passive: false,
        durable: call.second == "durable",
        exclusive: false,
        auto_delete: false,
        nowait: false,
    };
    registry.register_queue(alloc, name, options, FieldTable::new(alloc))?;
    Ok(())
}

fn declare_exchange(registry: &mut Registry, alloc: Global, call: &Words) -> Result<(), Fail> {
    let name = short(alloc, call.first)?;
    let kind = ExchangeKind::Custom(short(alloc, call.second)?);
    let options = ExchangeDeclareOptions::default();
    registry.register_exchange(alloc, name, kind, options, FieldTable::new(alloc))?;
    Ok(())
}

fn bind_queue(registry: &mut Registry, alloc: Global, call: &Words) -> Result<(), Fail> {
    let name = short(alloc, call.first)?;
    let source = short(alloc, call.second)?;
    let key = short(alloc, call.third)?;
    let arguments = arguments(alloc, call.fourth)?;
    registry.register_queue_binding(alloc, name, source, key, arguments)?;
    Ok(())
}

fn bind_exchange(registry: &mut Registry, alloc: Global, call: &Words) -> Result<(), Fail> {
    let name = short(alloc, call.first)?;
    let source = short(alloc, call.second)?;
    let key = short(alloc, call.third)?;
    let arguments = arguments(alloc, call.fourth)?;
    registry.register_exchange_binding(alloc, name, source, key, arguments)?;
    Ok(())
}

fn unbind_queue(registry: &mut Registry, alloc: Global, call: &Words) -> Result<(), Fail> {
    let arguments = arguments(alloc, call.fourth)?;
    registry.deregister_queue_binding(call.first, call.second, call.third, &arguments);
    Ok(())
}

fn unbind_exchange(registry: &mut Registry, alloc: Global, call: &Words) -> Result<(), Fail> {
    let arguments = arguments(alloc, call.fourth)?;
    registry.deregister_exchange_binding(call.first, call.second, call.third, &arguments);
    Ok(())
}

// A table that has the word as a key, none where there is no word.
fn arguments(alloc: Global, word: &str) -> Result<FieldTable, Fail> {
    let mut table = FieldTable::new(alloc);
    if word == "" {
        return Ok(table);
    }
    let key = short(alloc, word)?;
    table.insert(alloc, key, AMQPValue::Void)?;
    Ok(table)
}

// ---- what is recorded, in words

fn or_none(alloc: Global, text: String) -> Result<String, Fail> {
    if text.as_str() == "" {
        return said(alloc, "none");
    }
    Ok(text)
}

// The names in their order, each with how it was declared and its bindings.
fn queues(alloc: Global, registry: &Registry) -> Result<String, Fail> {
    let mut text = String::new(alloc);
    let queues = &registry.definition().queues;
    for place in 0..queues.len() {
        if let Some(queue) = queues.at(place) {
            add_queue(&mut text, queue)?;
        }
    }
    Ok(text)
}

fn add_queue(text: &mut String, queue: &QueueDefinition) -> Result<(), Fail> {
    text.push_str(queue.name.as_str())?;
    text.push_str(declared(queue))?;
    add_bindings(text, &queue.bindings)
}

fn declared(queue: &QueueDefinition) -> &'static str {
    match (&queue.options, queue.is_declared) {
        (Some(options), true) if options.durable => " durable",
        (Some(_), true) => " declared",
        (None, false) => " undeclared",
        _ => "?",
    }
}

fn exchanges(alloc: Global, registry: &Registry) -> Result<String, Fail> {
    let mut text = String::new(alloc);
    let exchanges = &registry.definition().exchanges;
    for place in 0..exchanges.len() {
        if let Some(exchange) = exchanges.at(place) {
            add_exchange(&mut text, exchange)?;
        }
    }
    Ok(text)
}

fn add_exchange(text: &mut String, exchange: &ExchangeDefinition) -> Result<(), Fail> {
    text.push_str(exchange.name.as_str())?;
    text.push_str(" ")?;
    match &exchange.kind {
        Some(kind) => text.push_str(kind.kind())?,
        None => text.push_str("undeclared")?,
    }
    add_bindings(text, &exchange.bindings)
}

fn add_bindings(text: &mut String, bindings: &Bindings) -> Result<(), Fail> {
    for place in 0..bindings.len() {
        if let Some(binding) = bindings.at(place) {
            add_binding(text, binding)?;
        }
    }
    text.push_str(";")?;
    Ok(())
}

fn add_binding(text: &mut String, binding: &BindingDefinition) -> Result<(), Fail> {
    text.push_str(" ")?;
    text.push_str(binding.source.as_str())?;
    text.push_str("-")?;
    text.push_str(binding.routing_key.as_str())?;
    Ok(())
}

// ---- the scripts

// A bind makes its queue undeclared where it is absent; a declare then keeps the bindings, also one that is made again. Names rise. An
// unbind removes every equal binding, and no other. A delete takes the name with its bindings.
const QUEUES: &str = "\
    bind-queue mail logs info -> done
    queues -> mail undeclared logs-info;
    declare-queue audit -> done
    declare-queue mail -> done
    declare-queue news durable -> done
    queues -> audit declared;mail declared logs-info;news durable;
    declare-queue mail durable -> done
    bind-queue mail logs error -> done
    bind-queue mail logs info -> done
    bind-queue mail logs info x -> done
    bind-queue mail trade info -> done
    queues -> audit declared;mail durable logs-info logs-error logs-info logs-info trade-info;news durable;
    unbind-queue confirm_state logs info -> done
    unbind-queue mail logs warning -> done
    unbind-queue mail logs info -> done
    queues -> audit declared;mail durable logs-error logs-info trade-info;news durable;
    unbind-queue mail logs info x -> done
    queues -> audit declared;mail durable logs-error trade-info;news durable;
    delete-queue mail -> done
    delete-queue mail -> done
    queues -> audit declared;news durable;
    declare-queue mail -> done
    queues -> audit declared;mail declared;news durable;
    exchanges -> none";

// The same of exchanges, which are bound as destinations.
const EXCHANGES: &str = "\
    bind-exchange b a k -> done
    exchanges -> b undeclared a-k;
    declare-exchange c topic -> done
    declare-exchange a fanout -> done
    declare-exchange b direct -> done
    bind-exchange b a k -> done
    bind-exchange b c k -> done
    exchanges -> a fanout;b direct a-k a-k c-k;c topic;
    declare-exchange b topic -> done
    unbind-exchange b a k -> done
    unbind-exchange d a k -> done
    exchanges -> a fanout;b topic c-k;c topic;
    delete-exchange b -> done
    exchanges -> a fanout;c topic;
    queues -> none
    clear -> done
    exchanges -> none";

#[test]
fn a_registry_records_what_was_completed(rt: HostRuntime) -> Result<(), Fail> {
    for script in [QUEUES, EXCHANGES] {
        runs(&rt, rt.alloc(), Registry::new(rt.alloc())?, script)?;
    }
    Ok(())
}
