//! Copies of rows, of steps and of inputs, with the keys and texts in them.
use crate::samples::{Fail, copied, so, text};
use seata_types::{
    Act, Boxed, Duplicate, Image, Input, List, Message, Outgoing, Place, Row, RowKey, Step, Ticket,
    Value, Xid,
};
use std::alloc::Global;

const TICKET: Ticket = Ticket { boot: 1, seq: 3 };

/// The row of a table `seat` with a number.
fn seat(alloc: Global, number: i64) -> Result<RowKey, Fail> {
    let table = text(alloc, "seat")?;
    let parts = Vec::from_array(alloc, [Value::Int(number)])?;
    Ok(RowKey {
        resource: 2,
        table,
        pk: List::of(parts),
    })
}

/// The answer that transaction 7 holds a row.
fn answer(alloc: Global, number: i64) -> Result<Message, Fail> {
    let key = seat(alloc, number)?;
    Ok(Message::LockAnswer {
        ticket: TICKET,
        held: Some((key, Xid(7))),
    })
}

/// The step that found that transaction 7 holds row 5, and answers so of row 6.
fn step(alloc: Global) -> Result<Step, Fail> {
    let key = seat(alloc, 5)?;
    let message = answer(alloc, 6)?;
    Ok(Step {
        act: Act::Held {
            key,
            holder: Xid(7),
        },
        sent: Some(Outgoing {
            to: Place::Res(2),
            message,
        }),
    })
}

fn input(alloc: Global) -> Result<Input, Fail> {
    let message = Boxed::new(alloc, answer(alloc, 6)?)?;
    Ok(Input::Message {
        from: Place::Tc,
        message,
    })
}

/// Whether a key is that of the row with a number.
fn is_seat(key: &RowKey, number: i64) -> bool {
    key.table.as_str() == "seat" && matches!(key.pk.as_slice(), [Value::Int(n)] if *n == number)
}

/// Whether a message answers so of row 6.
fn is_answer(message: &Message) -> bool {
    match message {
        Message::LockAnswer {
            ticket: TICKET,
            held: Some((key, Xid(7))),
        } => is_seat(key, 6),
        _ => false,
    }
}

fn is_sent(sent: &Option<Outgoing>) -> bool {
    match sent {
        Some(
            Outgoing {
                to: Place::Res(2),
                message,
            },
        ) => is_answer(message),
        _ => false,
    }
}

fn is_held(act: &Act) -> bool {
    match act {
        Act::Held {
            key,
            holder: Xid(7),
        } => is_seat(key, 5),
        _ => false,
    }
}

/// Whether the copy of the step is that step.
fn step_is_copied(alloc: Global) -> Result<bool, Fail> {
    let step = step(alloc)?;
    let copy = copied(alloc, step)?;
    Ok(is_held(&copy.act) && is_sent(&copy.sent))
}

fn is_input(input: &Input) -> bool {
    match input {
        Input::Message {
            from: Place::Tc,
            message,
        } => is_answer(message.get()),
        _ => false,
    }
}

/// Whether the copy of the input is that input.
fn input_is_copied(alloc: Global) -> Result<bool, Fail> {
    let input = input(alloc)?;
    let copy = copied(alloc, input)?;
    Ok(is_input(&copy))
}

fn steps_and_inputs_are_copied(alloc: Global) -> Result<(), Fail> {
    so(step_is_copied(alloc)?, "a step")?;
    so(input_is_copied(alloc)?, "an input")
}

#[test]
fn steps_and_inputs_copy(rt: HostRuntime) -> Result<(), Fail> {
    steps_and_inputs_are_copied(rt.alloc())
}

/// A row with a number and a text comes.
fn image(alloc: Global) -> Result<Image, Fail> {
    let mut values = Vec::new(alloc);
    values.push(Value::Int(-7))?;
    values.push(Value::Text(text(alloc, "it's")?))?;
    Ok(Image {
        key: seat(alloc, 5)?,
        before: None,
        after: Some(Row(List::of(values))),
    })
}

fn is_copied(alloc: Global, image: &Image) -> Result<bool, Fail> {
    let copy = image.copy(alloc)?;
    Ok(copy == *image)
}

fn rows_are_copied(alloc: Global) -> Result<(), Fail> {
    let image = image(alloc)?;
    so(is_copied(alloc, &image)?, "an image")
}

#[test]
fn rows_copy(rt: HostRuntime) -> Result<(), Fail> {
    rows_are_copied(rt.alloc())
}
