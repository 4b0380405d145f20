// The call extract, its answer as a host gets it. Public for `spatialjoin_c`.
ghost use Rattle.definitions.specs.Calls.Settings.{extract_under, extract_walk_under};
ghost use Rattle.terms.specs.Settings.{settings_of};
ghost use Rattle.node_table.specs.Records.{nodes_of};
ghost use Rattle.host_calls.specs.Hosted.{ExtractHosted};

use super::answers::walk_number;
use call_extract::by_table::extract_by_table;
use node_table::NodeRecord;
use terms::settings::Settings;

pub fn extract_number(
    plan: &mut [u8],
    n: usize,
    scratch: &mut [u8],
    table: &[NodeRecord],
    settings: Settings,
) -> i64
    ensures { ExtractHosted plan.old (extract_under (settings_of settings) n plan.old scratch.old (nodes_of table.now))
        (extract_walk_under (settings_of settings) n plan.old scratch.old (nodes_of table.now)) plan.new scratch.new result }
{
    walk_number(extract_by_table(plan, n, scratch, table, settings))
}
