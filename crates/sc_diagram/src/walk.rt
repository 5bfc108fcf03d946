ghost use Rattle.std.specs.Prelude.{◌≡◌, ◌<◌, length};
ghost use Rattle.sc_model.specs.Sets.{IsConfig};
ghost use Rattle.sc_diagram.specs.Diagram.{sets_of};

use crate::table::{ALWAYS, Table};

/// Whether a configuration's steps from a node end at always.
pub fn leads_to_always(table: &Table, node: usize, config: &[usize]) -> bool
    requires own { node < length table.now.nodes }
    requires config { IsConfig table.now.arities config.now }
    ensures { result ≡ (sets_of table.now).has node config.now }
{
    let _count = table.count();
    let mut at = node;
    while at > ALWAYS {
        let variable = table.variable(at);
        let option = config[variable];
        at = table.cofactor(at, variable, option);
    }
    at == ALWAYS
}
