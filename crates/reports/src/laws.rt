// Laws: what the order and the length of a report, and the lines of refusals, come to.
ghost use Rattle.reports.specs.LineLaws.{EveryReportFits};
ghost use Rattle.reports.specs.OrderLaws.{EveryComponentInOrder, OrderFromTree};
ghost use Rattle.reports.specs.RefusalLaws.{RefusalLinesApart};

// Every component has exactly one line, after its parent's and indented one step more, and components under one parent
// come by number.
pub fn every_component_in_order()
    ensures { EveryComponentInOrder }
{}

// The order of the lines depends on the parents and the numbers of the components alone.
pub fn order_from_tree()
    ensures { OrderFromTree }
{}

// Each component's line and the total's are one line of at most 14 and 27 bytes, and a report never exceeds 16 bytes for
// each component and 32 more.
pub fn every_report_fits()
    ensures { EveryReportFits }
{}

// Where the letter of a fault is one from A to Z, a refusal's line has byte 10 once, at its end, and no other refusal has
// the same 40 bytes.
pub fn refusal_lines_apart()
    ensures { RefusalLinesApart }
{}
