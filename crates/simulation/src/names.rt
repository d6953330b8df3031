//! The words of topologies and scenarios.
ghost use Rattle.std.specs.Prelude.{◌≡◌, IfSome, Some};
ghost use Rattle.simulated_networks.specs.declared.topology.TopologyShape.{TopologyShape};
ghost use Rattle.simulated_networks.specs.declared.plan.Scenario.{Scenario};
ghost use Rattle.simulation.specs.Words.{scenario_word, topology_word};

use simulated_networks::{Scenario, TopologyShape};

/// The word of a topology.
pub fn topology_word(kind: TopologyShape) -> &'static str
    ensures { result.now ≡ topology_word kind }
{
    match kind {
        TopologyShape::Grid => "grid",
        TopologyShape::Row => "row",
        TopologyShape::Ring => "ring",
        TopologyShape::FatTree => "fat-tree",
        TopologyShape::Random => "random",
    }
}

/// The topology of a word.
pub fn topology_of(word: &str) -> Option<TopologyShape>
    ensures found { IfSome result (λ kind. word.now ≡ topology_word kind) }
    ensures only { (kind : TopologyShape) → word.now ≡ topology_word kind → result ≡ Some kind }
{
    match word {
        "grid" => Some(TopologyShape::Grid),
        "row" => Some(TopologyShape::Row),
        "ring" => Some(TopologyShape::Ring),
        "fat-tree" => Some(TopologyShape::FatTree),
        "random" => Some(TopologyShape::Random),
        _ => None,
    }
}

/// The word of a scenario.
pub fn scenario_word(scenario: Scenario) -> &'static str
    ensures { result.now ≡ scenario_word scenario }
{
    match scenario {
        Scenario::Start => "start",
        Scenario::Link => "link",
        Scenario::Silent => "silent",
        Scenario::Restart => "restart",
        Scenario::Flap => "flap",
        Scenario::Partition => "partition",
        Scenario::Announce => "announce",
        Scenario::Withdraw => "withdraw",
        Scenario::Storm => "storm",
    }
}

/// The scenario of a word.
pub fn scenario_of(word: &str) -> Option<Scenario>
    ensures found { IfSome result (λ scenario. word.now ≡ scenario_word scenario) }
    ensures only { (scenario : Scenario) → word.now ≡ scenario_word scenario
        → result ≡ Some scenario }
{
    match word {
        "start" => Some(Scenario::Start),
        "link" => Some(Scenario::Link),
        "silent" => Some(Scenario::Silent),
        "restart" => Some(Scenario::Restart),
        "flap" => Some(Scenario::Flap),
        "partition" => Some(Scenario::Partition),
        "announce" => Some(Scenario::Announce),
        "withdraw" => Some(Scenario::Withdraw),
        "storm" => Some(Scenario::Storm),
        _ => None,
    }
}
