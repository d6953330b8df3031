//! What is printed for programs: an object of JSON on one line.
use crate::names::{scenario_word, topology_word};
use crate::numbers::{numbers_of_counts, numbers_of_faults};
use crate::page::Page;
use simulated_networks::{Look, Outcome, Phase, ScenarioPlan};
use std::io::Write;

const PLAN: &str = concat!(
    r#","spread":{},"externals":{},"announcers":{},"hello":{},"dead":{},"retransmit":{}"#,
    r#","loss":{},"late":{},"twice":{}"#
);

const COUNTS: &str = concat!(
    r#","events":{},"refused":{},"walks":{},"packets":{},"bytes":{},"lost":{}"#,
    r#","copies":{},"most_under_way":{}"#
);

const SEEN: &str = r#","looping":{},"nowhere":{},"missing":{},"other_cost":{},"stray":{}"#;

fn write_look<O: Write>(page: &mut Page<O>, look: &Look) {
    let numbers = [look.second, look.not_full as u64];
    page.fill(r#"{"second":{},"not_full":{}"#, &numbers);
    if let Some(differ) = look.differ {
        page.fill(r#","differ":{}"#, &[differ as u64]);
    }
    if let Some(seen) = look.seen {
        page.fill(SEEN, &numbers_of_faults(&seen));
    }
    page.text("}");
}

fn write_looks<O: Write>(page: &mut Page<O>, looks: &[Look]) {
    let mut before = "";
    for look in looks {
        page.text(before);
        write_look(page, look);
        before = ",";
    }
}

fn write_phase<O: Write>(page: &mut Page<O>, name: &str, phase: &Phase) {
    let numbers = [phase.full, phase.settled, phase.seconds];
    page.fill(r#","{}":{"full":"#, &[name]);
    page.fill(r#"{},"settled":{},"seconds":{},"looks":["#, &numbers);
    write_looks(page, &phase.looks);
    page.text("]}");
}

// The network that is played, and what may become of packets.
fn write_plan<O: Write>(page: &mut Page<O>, plan: &ScenarioPlan) {
    let words = [scenario_word(plan.scenario), topology_word(plan.topology)];
    let numbers = [
        plan.spread,
        plan.externals,
        plan.announcers,
        u32::from(plan.times.hello),
        plan.times.dead,
        u32::from(plan.times.retransmit),
        plan.faults.loss,
        plan.faults.late,
        plan.faults.twice,
    ];
    page.fill(r#"{"seed":{}"#, &[plan.seed]);
    page.fill(r#","scenario":"{}","topology":"{}""#, &words);
    page.fill(PLAN, &numbers);
}

fn write_outcome<O: Write>(page: &mut Page<O>, outcome: &Outcome) {
    let numbers = [outcome.routers, outcome.links, outcome.lsas];
    page.fill(r#","routers":{},"links":{},"lsas":{}"#, &numbers);
    page.fill(r#","at_rest":{}"#, &[outcome.is_at_rest()]);
    page.fill(COUNTS, &numbers_of_counts(&outcome.counts, outcome.walks));
}

/// Writes what came of a plan for one seed.
pub fn write_run<O: Write>(page: &mut Page<O>, plan: &ScenarioPlan, outcome: &Outcome) {
    write_plan(page, plan);
    write_outcome(page, outcome);
    write_phase(page, "start", &outcome.start);
    write_phase(page, "change", &outcome.change);
    write_phase(page, "rest", &outcome.rest);
    page.text("}\n");
}
