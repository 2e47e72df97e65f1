//! The line of an answer.
ghost use Rattle.std.specs.Prelude.{◌≡◌, ◌++◌, ◌∷◌, [], IfOk, OnOk, codes, decimal, is_ok, if◌then◌else◌, string_bytes};
ghost use Rattle.std.specs.List.{flat_map};
ghost use Rattle.xod_base.specs.declared.answer.StmtError.TheVariants as refusal;
ghost use Rattle.xod_base.specs.QueryTexts.{id_text};
ghost use Rattle.xod_print.specs.Texts.{act_text, answer_line as line_of, cause_text, flush_text, ids_text, link_text, prop_text, refusal_text, reply_text, shown_text};

use std::alloc::Global;
use xod_base::{
    ActAnswer, Bytes, Cause, EntityId, FlushAnswer, IdList, Memory, NameKind, Reply, Shown,
    StmtError, Text, Value, push_id, push_value,
};

/// Puts each id behind a space at the end.
fn push_ids(alloc: Global, out: &mut Bytes, ids: &IdList) -> Result<(), Memory>
    ensures { OnOk result (out.new ≡ out.old ++ ids_text ids.now) }
{
    for number in ids.as_numbers() {
        out.push(b' ')?;
        push_id(alloc, out, EntityId::of_number(*number))?;
    }
    Ok(())
}

fn push_prop(alloc: Global, out: &mut Bytes, name: &Text, value: &Value) -> Result<(), Memory>
    ensures { OnOk result (out.new ≡ out.old ++ prop_text (name.now, value.now)) }
{
    out.push(b' ')?;
    out.extend(name.as_bytes())?;
    out.push(b'=')?;
    push_value(alloc, out, value)?;
    Ok(())
}

fn push_props(alloc: Global, out: &mut Bytes, props: &[(Text, Value)]) -> Result<(), Memory>
    ensures { OnOk result (out.new ≡ out.old ++ flat_map prop_text props.now) }
{
    for prop in props {
        push_prop(alloc, out, &prop.0, &prop.1)?;
    }
    Ok(())
}

fn push_link(alloc: Global, out: &mut Bytes, name: &Text, target: EntityId) -> Result<(), Memory>
    ensures { OnOk result (out.new ≡ out.old ++ link_text (name.now, target)) }
{
    out.push(b' ')?;
    out.extend(name.as_bytes())?;
    out.push(b'>')?;
    push_id(alloc, out, target)?;
    Ok(())
}

fn push_links(alloc: Global, out: &mut Bytes, links: &[(Text, EntityId)]) -> Result<(), Memory>
    ensures { OnOk result (out.new ≡ out.old ++ flat_map link_text links.now) }
{
    for link in links {
        push_link(alloc, out, &link.0, link.1)?;
    }
    Ok(())
}

fn push_shown(alloc: Global, out: &mut Bytes, shown: &Shown) -> Result<(), Memory>
    ensures { OnOk result (out.new ≡ out.old ++ shown_text shown.now) }
{
    push_id(alloc, out, shown.id)?;
    out.push(b' ')?;
    out.extend(shown.kind.as_bytes())?;
    push_props(alloc, out, shown.props.as_slice())?;
    push_links(alloc, out, shown.links.as_slice())?;
    Ok(())
}

fn many_text(alloc: Global, kind: NameKind, limit: u32) -> Result<String, Memory>
    ensures { IfOk result (λ text. string_bytes text ≡ refusal_text (refusal.TooMany kind limit)) }
{
    match kind {
        NameKind::Kinds => Ok(format!(in alloc; "refused too many types {limit}")?),
        NameKind::Props => Ok(format!(in alloc; "refused too many properties {limit}")?),
        NameKind::Links => Ok(format!(in alloc; "refused too many links {limit}")?),
    }
}

fn refusal_of(alloc: Global, error: StmtError) -> Result<String, Memory>
    ensures { IfOk result (λ text. string_bytes text ≡ refusal_text error) }
{
    match error {
        StmtError::NoEntity { id } => {
            let EntityId { kind, local } = id;
            Ok(format!(in alloc; "refused no entity {kind}-{local}")?)
        }
        StmtError::ReadOnly => Ok(format!(in alloc; "refused read only")?),
        StmtError::TooMany { kind, limit } => many_text(alloc, kind, limit),
        StmtError::IdsSpent { kind } => Ok(format!(in alloc; "refused ids spent {kind}")?),
        StmtError::TextTooLong { len } => Ok(format!(in alloc; "refused text too long {len}")?),
        StmtError::Device => Ok(format!(in alloc; "stop device")?),
        StmtError::Damaged(_) => Ok(format!(in alloc; "stop damaged")?),
        StmtError::Memory => Ok(format!(in alloc; "stop memory")?),
    }
}

fn push_act(alloc: Global, out: &mut Bytes, answer: ActAnswer) -> Result<(), Memory>
    ensures { OnOk result (out.new ≡ out.old ++ act_text answer) }
{
    match answer {
        ActAnswer::Made(id) => push_id(alloc, out, id),
        ActAnswer::Changed => out.extend(b"ok"),
        ActAnswer::Same => out.extend(b"same"),
    }
}

fn flush_of(alloc: Global, answer: FlushAnswer) -> Result<String, Memory>
    ensures { IfOk result (λ text. string_bytes text ≡ flush_text answer) }
{
    match answer {
        FlushAnswer::Nothing => Ok(format!(in alloc; "nothing")?),
        FlushAnswer::Committed { version, .. } => Ok(format!(in alloc; "committed {version}")?),
        FlushAnswer::Conflict { base, now } => {
            Ok(format!(in alloc; "conflict base {base} now {now}")?)
        }
    }
}

fn push_cause(out: &mut Bytes, cause: Cause) -> Result<(), Memory>
    ensures { OnOk result (out.new ≡ out.old ++ cause_text cause) }
{
    match cause {
        Cause::Device => out.extend(b"device"),
        Cause::Broken => out.extend(b"broken"),
        Cause::Damaged => out.extend(b"damaged"),
        Cause::Spent => out.extend(b"spent"),
        Cause::Memory => out.extend(b"memory"),
    }
}

/// Puts a word and a name at the end.
fn push_named(out: &mut Bytes, word: &[u8], name: &Text) -> Result<(), Memory>
    ensures { OnOk result (out.new ≡ out.old ++ (word.now ++ name.now)) }
{
    out.extend(word)?;
    out.extend(name.as_bytes())?;
    Ok(())
}

fn push_reply(alloc: Global, out: &mut Bytes, reply: &Reply) -> Result<(), Memory>
    ensures { OnOk result (out.new ≡ out.old ++ reply_text reply.now) }
{
    match reply {
        Reply::At { commit } => {
            let text = format!(in alloc; "at {commit}")?;
            out.extend(text.as_bytes())
        }
        Reply::Flushed(answer) => {
            let text = flush_of(alloc, *answer)?;
            out.extend(text.as_bytes())
        }
        Reply::Ended => out.extend(b"ended"),
        Reply::Synced => out.extend(b"synced"),
        Reply::Acted(answer) => push_act(alloc, out, *answer),
        Reply::Shown(shown) => push_shown(alloc, out, shown),
        Reply::Ids(ids) => {
            out.extend(b"ids")?;
            push_ids(alloc, out, ids)
        }
        Reply::Count { number } => {
            let text = format!(in alloc; "count {number}")?;
            out.extend(text.as_bytes())
        }
        Reply::Refused(error) => {
            let text = refusal_of(alloc, *error)?;
            out.extend(text.as_bytes())
        }
        Reply::Unset { name } => push_named(out, b"refused unset $", name),
        Reply::Stop { cause } => {
            out.extend(b"stop ")?;
            push_cause(out, *cause)
        }
    }
}

/// The line of an answer: the number of its statement's line, and its text.
pub fn answer_line(alloc: Global, line: u32, reply: &Reply) -> Result<Bytes, Memory>
    ensures { IfOk result (λ text. text ≡ line_of line reply.now) }
{
    let mut out = Bytes::new(alloc);
    let number = format!(in alloc; "{line}: ")?;
    out.extend(number.as_bytes())?;
    push_reply(alloc, &mut out, reply)?;
    out.push(b'\n')?;
    Ok(out)
}

/// Puts the line of an answer at the end. A refusal leaves what is there as it was.
pub fn print_answer(alloc: Global, out: &mut Bytes, line: u32, reply: &Reply) -> Result<(), Memory>
    ensures { out.new ≡ (if is_ok result then out.old ++ line_of line reply.now else out.old) }
{
    let text = answer_line(alloc, line, reply)?;
    out.append(text)?;
    Ok(())
}
