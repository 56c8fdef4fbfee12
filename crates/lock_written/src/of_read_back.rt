//! The law that a canonical text reads back, in steps.
ghost use Rattle.read_back.specs.Laws.{CanonicalIsJudged, ReadsBack, SaidIsRead};

pub fn said_text_is_read()
    ensures { SaidIsRead }
{
    read_back::said_text_is_read();
}

pub fn canonical_statements_are_judged()
    ensures { CanonicalIsJudged }
{
    read_back::canonical_statements_are_judged();
}

pub fn canonical_text_reads_back()
    ensures { ReadsBack }
{
    read_back::canonical_text_reads_back();
}
