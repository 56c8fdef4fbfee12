ghost use Rattle.theta_passes.specs.code.Quiet.{QuietEdges, FoundEdge, QuietDetects, FoundDetect};

/// What the passes answer is what the rows say under every guess that is asked about.
pub fn passes_decide() -> bool
    ensures quiet_edge { QuietEdges }
    ensures found_edge { FoundEdge }
    ensures quiet_detect { QuietDetects }
    ensures found_detect { FoundDetect }
{
    true
}
