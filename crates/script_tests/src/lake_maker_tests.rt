//! A small lake, and the summary of an empty record.
use commands::Task;
use lake_maker::{made_batch, write_summary};
use run_record::RunRecord;
use std::test::Fail;

// Returns whether a task is the load of a table with this name and this text.
fn loads(task: &Task, title: &str, text: &str) -> bool {
    match task {
        Task::Load { name, body } => name.text() == title && body.bytes() == text.as_bytes(),
        _ => false,
    }
}

#[test]
fn first_table_of_seed_0(rt: HostRuntime) -> Result<(), Fail> {
    let batch = made_batch(rt.alloc(), 0, 1, 2)?;
    let first = batch.commands().first().ok_or("no command")?;
    let wanted = "a,b,c\nv46,v848,v4556\nv57,v594,v7982\n";
    assert!(rt; loads(first.task(), "g1", wanted));
    Ok(())
}

#[test]
fn summary_of_nothing(rt: HostRuntime) -> Result<(), Fail> {
    let mut text = Vec::new(rt.alloc());
    write_summary(&RunRecord::new(rt.alloc()), &mut text)?;
    let wanted = "tables 0\nmembers 0\nmerges 0\nanswers 0 rows 0 overlap 0\nreads 0 probes 0\n";
    assert!(rt; text.as_slice() == wanted.as_bytes());
    Ok(())
}
