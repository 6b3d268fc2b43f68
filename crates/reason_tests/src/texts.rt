//! The lines of reasons and of their operations that no command writes, and those when an
//! allocation fails.

use cuts::{Cut, part_by};
use edn::read_forms;
use events::split;
use history::read_history_text;
use reason_report::{push_operations, push_reason};
use refutation::{Reason, ReasonFault, ReasonFaultKind, read_reasons, reason_lines};
use std::alloc::Global;
use std::test::Fail;

/// The reasons of a text, or the fault of its forms.
fn read(alloc: Global, text: &[u8]) -> Result<Result<Vec<Reason>, ReasonFault>, Fail> {
    let Ok(forms) = read_forms(alloc, text) else {
        return Err(Fail::new("a text of forms is refused"));
    };
    Ok(read_reasons(alloc, forms.as_slice()))
}

/// Each kind of cut, of count and of search, with its least and greatest numbers. What a cut or a
/// count means as it is read is tested on the built program.
const LINES: [&str; 27] = [
    "{:object 0, :cuts [{:from 17}]}\n",
    "{:object 0, :cuts [{:from 0}]}\n",
    "{:object 0, :cuts [{:until 120}]}\n",
    "{:object 0, :cuts [{:until 4294967295}]}\n",
    "{:object 0, :cuts [{:without 7, :before 120}]}\n",
    "{:object 0, :cuts [{:without -9223372036854775808, :before 4294967295}]}\n",
    "{:object 0, :cuts [{:keep [1 2], :numbers [4 7]}]}\n",
    "{:object 0, :cuts [{:keep :all, :numbers [3]}]}\n",
    "{:object 0, :cuts [{:keep []}]}\n",
    "{:object 0, :cuts [{:keep [-9223372036854775808 -1 9223372036854775807], :numbers [0 \
     4294967295]}]}\n",
    "{:object 0, :cuts [{:cell [1], :other 9, :numbers [4]}]}\n",
    "{:object 0, :cuts [{:cell :all, :other -3}]}\n",
    "{:object 0, :cuts [{:cell [1], :key 5, :other 9}]}\n",
    "{:object 0, :cuts [{:cell :all, :key -5, :other 0, :numbers [1 2 3]}]}\n",
    "{:object 65535, :cuts [], :count {:value 7, :from 0}}\n",
    "{:object 65535, :cuts [], :count {:value -7, :from 12}}\n",
    "{:object 65535, :cuts [], :count {:key 5, :value 7, :from 0}}\n",
    "{:object 65535, :cuts [], :count {:key 5, :from 3}}\n",
    "{:object 65535, :cuts [], :count {:held true, :from 0}}\n",
    "{:object 65535, :cuts [], :count {:free true, :from 4294967295}}\n",
    "{:object 65535, :cuts [], :count {:ahead 0}}\n",
    "{:object 65535, :cuts [], :count {:ahead 4294967295}}\n",
    "{:object 65535, :cuts [{:until 9}], :count {:ahead 7, :from 4294967295}}\n",
    "{:object 4, :cuts [], :search {:first :return}}\n",
    "{:object 4, :cuts [], :search {:first :return, :steps 4294967295}}\n",
    "{:object 4, :cuts [{:until 3}], :search {:first :number, :steps 0}}\n",
    "{:object 2, :cuts [{:until 120} {:from 17} {:keep [1 2]}], :count {:value 7, :from 17}}\n",
];

#[test]
fn reasons_that_were_read_are_written_as_they_were(rt: HostRuntime) -> Result<(), Fail> {
    for line in LINES.iter() {
        let Ok(reasons) = read(rt.alloc(), line.as_bytes())? else {
            return Err(Fail::new("a reason is refused"));
        };
        let written = reason_lines(rt.alloc(), reasons.as_slice())?;
        assert!(rt; written.as_slice() == line.as_bytes(), "{line}");
    }
    Ok(())
}

/// With `:ahead` the other keys of a count are ignored, except `:from`.
#[test]
fn what_was_ahead_is_counted_whatever_else_a_count_says(rt: HostRuntime) -> Result<(), Fail> {
    let text = b"{:object 0, :count {:value :x, :key :y, :held true, :ahead 3, :from 0}}";
    let Ok(reasons) = read(rt.alloc(), text)? else {
        return Err(Fail::new("a reason is refused"));
    };
    let written = reason_lines(rt.alloc(), reasons.as_slice())?;
    assert!(rt; written.as_slice() == b"{:object 0, :cuts [], :count {:ahead 3}}\n".as_slice());
    Ok(())
}

#[test]
fn what_was_ahead_is_counted_at_a_number_from_a_number(rt: HostRuntime) -> Result<(), Fail> {
    for count in [
        "{:ahead nil}",
        "{:ahead -1}",
        "{:ahead 4294967296}",
        "{:ahead nil, :value 7, :from 0}",
        "{:ahead 3, :from -1}",
        "{:ahead 3, :from nil}",
    ] {
        let text = format!(in rt.alloc(); "{{:object 0}} {{:object 0, :count {count}}}")?;
        let Err(fault) = read(rt.alloc(), text.as_bytes())? else {
            return Err(Fail::new("a reason is read"));
        };
        assert!(rt;
            fault.kind == ReasonFaultKind::NotAReason && fault.form == 1,
            "{count}"
        );
    }
    Ok(())
}

#[test]
fn the_lines_of_several_reasons_are_in_their_order(rt: HostRuntime) -> Result<(), Fail> {
    let text =
        b"{:object 0, :cuts [{:cell [-2], :other 9, :numbers [4]}]}\n{:object 3, :cuts []}\n";
    let Ok(reasons) = read(rt.alloc(), text)? else {
        return Err(Fail::new("reasons are refused"));
    };
    let written = reason_lines(rt.alloc(), reasons.as_slice())?;
    assert!(rt; written.as_slice() == text.as_slice());
    Ok(())
}

/// Passes for each allocation that is refused: the reader says that an allocation failed, or
/// reads the text.
#[test]
fn where_memory_is_refused_reasons_are_read_or_the_fault_says_so(
    rt: HostRuntime,
) -> Result<(), Fail> {
    let text = "{:object 0, :cuts [{:keep [1 2], :numbers [4 7]} {:until 9}]} {:object 3}";
    let Ok(forms) = read_forms(rt.alloc(), text.as_bytes()) else {
        return Ok(());
    };
    match read_reasons(rt.alloc(), forms.as_slice()) {
        Ok(reasons) => assert!(rt; reasons.len() == 2),
        Err(fault) => {
            assert!(rt; fault.kind == ReasonFaultKind::NoMemory);
            assert!(rt; fault.kind.number() == 2);
        }
    }
    Ok(())
}

#[test]
fn a_line_of_a_reason_is_a_comment_or_not(rt: HostRuntime) -> Result<(), Fail> {
    let line = b"{:object 2, :cuts [{:until 40}], :count {:value 7, :from 0}}\n";
    let Ok(reasons) = read(rt.alloc(), line)? else {
        return Err(Fail::new("a reason is refused"));
    };
    let Some(reason) = reasons.first() else {
        return Err(Fail::new("no reason is read"));
    };
    for (commented, before) in [(false, "before\n"), (true, "before\n; ")] {
        let mut wanted = Vec::from_slice(rt.alloc(), before.as_bytes())?;
        wanted.extend_from_slice(line)?;
        let mut text = Vec::from_slice(rt.alloc(), b"before\n")?;
        push_reason(rt.alloc(), &mut text, commented, reason)?;
        assert!(rt; text.as_slice() == wanted.as_slice());
    }
    Ok(())
}

#[test]
fn of_a_part_without_operations_nothing_is_told(rt: HostRuntime) -> Result<(), Fail> {
    let text = b"{:process 0 :type :invoke :f :pop} {:process 0 :type :ok :f :pop}";
    let Ok(history) = read_history_text(rt.alloc(), text) else {
        return Err(Fail::new("a history is refused"));
    };
    let objects = split(rt.alloc(), &history)?;
    let Some(object) = objects.first() else {
        return Err(Fail::new("no object"));
    };
    let cuts = vec![in rt.alloc(); Cut::Until(0)]?;
    let Some(part) = part_by(rt.alloc(), object, &cuts)? else {
        return Err(Fail::new("no part"));
    };
    let mut text = Vec::from_slice(rt.alloc(), b"before\n")?;
    push_operations(&mut text, false, &history, &part)?;
    assert!(rt; text.as_slice() == b"before\n".as_slice());
    Ok(())
}
