// The lines that a run prints.
ghost use Rattle.std.specs.Prelude.{◌≡◌, drop, string_bytes, IfOk};
ghost use Rattle.scan.specs.Texts.{Gains};
ghost use Rattle.eventrun.specs.Lines.{opening_line, answer_line, answer_lines, fault_line, run_text, transcript_of};

use super::play::run_file;
use events::event::Event;
use events::fault::Fault;
use modelfile::default::default_model;
use models::model::MarginModel;
use rules::call::Answer;
use std::alloc::Global;
use std::fmt::Write;

// The line of the opening, if there is one.
fn write_opening(text: &mut String, number: Option<u8>) -> anyhow::Result<()>
    ensures { Gains result text.old text.new (opening_line number) }
{
    if let Some(number) = number {
        writeln!(text, "1 1 {number}")?;
    }
    Ok(())
}

fn write_answer(
    text: &mut String,
    ordinal: usize,
    event: Event,
    answer: &Answer,
) -> anyhow::Result<()>
    ensures { Gains result text.old text.new (answer_line ordinal event answer.now) }
{
    let kind = event.kind().code();
    writeln!(text, "{ordinal} {kind} {answer}")?;
    Ok(())
}

// A line for each answer. The first answers the second record.
fn write_answers(text: &mut String, records: &[Event], answers: &[Answer]) -> anyhow::Result<()>
    ensures { Gains result text.old text.new (answer_lines 2 (drop 1 records.now) answers.now) }
{
    for (place, (event, answer)) in records.iter().skip(1).zip(answers).enumerate() {
        write_answer(text, place + 2, *event, answer)?;
    }
    Ok(())
}

// The line of the fault, if there is one. A refused opening has the last line.
fn write_fault(text: &mut String, number: Option<u8>, fault: Option<Fault>) -> anyhow::Result<()>
    ensures { Gains result text.old text.new (fault_line number fault) }
{
    if let Some(fault) = fault
        && matches!(number, None | Some(0))
    {
        writeln!(text, "{fault}")?;
    }
    Ok(())
}

// The line of the opening, a line for each later record, and one for the fault.
fn write_run<M: MarginModel>(heap: Global, model: &M, bytes: &[u8]) -> anyhow::Result<String>
    ensures { IfOk result (λ text. string_bytes text ≡ run_text (M.meaning model.now) bytes.now) }
{
    let run = run_file(heap, model, bytes)?;
    let mut text = String::new(heap);
    write_opening(&mut text, run.played.number)?;
    write_answers(&mut text, &run.found.events, &run.played.answers)?;
    write_fault(&mut text, run.played.number, run.found.fault)?;
    Ok(text)
}

// What a run prints of an event file. Its model is the one of which every number is 0.
pub fn transcript(heap: Global, bytes: &[u8]) -> anyhow::Result<String>
    ensures { IfOk result (λ text. string_bytes text ≡ transcript_of bytes.now) }
{
    write_run(heap, &default_model(heap)?, bytes)
}
