//! Theorems about the definitions. Each function has an empty body; its contract states the theorem.

ghost use Rattle.std.specs.Prelude.{ℕ, List, Result};
ghost use Rattle.json.specs.Json.{Json as TheJson};
ghost use Rattle.ledger_rules.specs.declared.entry.Entry.{Entry as TheEntry};
ghost use Rattle.ledger_rules.specs.declared.left.Left.{Left as TheLeft};
ghost use Rattle.ledger_rules.specs.declared.record_count.AnswerCount.{AnswerCount as TheAnswerCount};
ghost use Rattle.ledger_rules.specs.declared.record_count.RecordCount.{RecordCount as TheRecordCount};
ghost use Rattle.ledger_rules.specs.declared.resumed.Resumed.{Resumed as TheResumed};
ghost use Rattle.ledger_lines.specs.Lines.{IsLine, IsLineOf};
ghost use Rattle.ledger_lines.specs.Same.{GivesBack, IsAnswer, IsSameLine, IsSameSummed};
ghost use Rattle.ledger_lines.specs.Written.{HasFrontBehind, IsReadableAnswerCount, IsReadableBegin, IsReadableEnd, IsReadableEntry, IsReadableLeft, IsReadableRecordCount, IsReadableResumed, IsSum, IsSummedAs, answer_count_value, begin_value, counted_as, end_value, entry_value, left_value, record_count_value, resumed_value};
ghost use Rattle.ledger_lines.specs.declared.begin.Begin.{Begin as TheBegin};
ghost use Rattle.ledger_lines.specs.declared.end.End.{End as TheEnd};
ghost use Rattle.ledger_lines.specs.declared.faults.LineFault.{LineFault as TheFault};
ghost use Rattle.ledger_lines.specs.declared.reading.Line.{Line as TheLine};
ghost use Rattle.ledger_lines.specs.declared.reading.SummedLine.{SummedLine as TheSummedLine};
ghost use Rattle.ledger_lines.specs.declared.record_count.CountKind.{CountKind as TheKind};
ghost use Rattle.ledger_lines.specs.declared.reading.Line.TheVariants.{AgainEarlier as recalls, Begin as begins, Entry as enters, Left as leaves, Resumed as resumes, End as ends};

/// What is written of a line, with a sum behind it, is read as this line with this sum, if there are no more than 65,536 octets.
///
/// A value is one line at most, and so are octets: two lines that they are have one kind, and the same in each field. So what `read_line`
/// answers of such a line is this line, with this sum, unless memory was refused.
pub fn written_lines_are_read()
    ensures begin { (before all sum : List ℕ) (begin : TheBegin) (written : HasFrontBehind before all (begin_value begin)) → IsReadableBegin begin → IsSum sum → IsSummedAs written.front sum (begins begin) }
    ensures entry { (before all sum : List ℕ) (e : TheEntry) (written : HasFrontBehind before all (entry_value e)) → IsReadableEntry e → IsSum sum → IsSummedAs written.front sum (enters e) }
    ensures left { (before all sum : List ℕ) (left : TheLeft) (written : HasFrontBehind before all (left_value left)) → IsReadableLeft left → IsSum sum → IsSummedAs written.front sum (leaves left) }
    ensures record_count { (before all sum : List ℕ) (kind : TheKind) (its : TheRecordCount) (written : HasFrontBehind before all (record_count_value kind its)) → IsReadableRecordCount its → IsSum sum → IsSummedAs written.front sum (counted_as kind its) }
    ensures answer_count { (before all sum : List ℕ) (its : TheAnswerCount) (written : HasFrontBehind before all (answer_count_value its)) → IsReadableAnswerCount its → IsSum sum → IsSummedAs written.front sum (recalls its) }
    ensures resumed { (before all sum : List ℕ) (its : TheResumed) (written : HasFrontBehind before all (resumed_value its)) → IsReadableResumed its → IsSum sum → IsSummedAs written.front sum (resumes its) }
    ensures end { (before all sum : List ℕ) (end : TheEnd) (written : HasFrontBehind before all (end_value end)) → IsReadableEnd end → IsSum sum → IsSummedAs written.front sum (ends end) }
    ensures one_of_value { (value : TheJson) (one another : TheLine) → IsLineOf value one → IsLineOf value another → IsSameLine one another }
    ensures one_of_octets { (octets : List ℕ) (one another : TheSummedLine) → IsLine octets one → IsLine octets another → IsSameSummed one another }
    ensures given_back { (octets : List ℕ) (line : TheSummedLine) (answer : Result TheSummedLine TheFault) → IsLine octets line → IsAnswer octets answer → GivesBack answer line }
{}
