//! Lemmas for proofs: the ranges that the types of a body's fields ensure. Nothing here does
//! anything at run time.
ghost use Rattle.std.specs.List.{AllByRecursion};
ghost use Rattle.lsa.specs.Text.{IsRouterId, IsLinkTos};
ghost use Rattle.lsa.specs.Ranges.{BodyIsTyped, ExternalIsTyped, ExternalTosIsTyped, LinkIsTyped};
ghost use Rattle.lsa.specs.Ranges.{RouterIsTyped, SummaryIsTyped, SummaryTosIsTyped};

use crate::body::{
    ExternalLsa, ExternalTos, LinkTos, LsaBody, RouterLink, RouterLsa, SummaryLsa, SummaryTos,
};
use words::RouterId;

fn prove_metric(metric: &LinkTos)
    ensures { IsLinkTos metric.now }
{
    let _tos = metric.tos;
    let _unused = metric.unused;
    let _metric = metric.metric;
}

fn prove_metrics(metrics: &[LinkTos])
    ensures { AllByRecursion IsLinkTos metrics.now }
{
    for metric in metrics {
        prove_metric(metric);
    }
}

fn prove_link(link: &RouterLink)
    ensures { LinkIsTyped link.now }
{
    let _link_id = link.link_id;
    let _link_data = link.link_data;
    let _metric = link.metric;
    prove_metrics(link.tos.as_slice());
}

fn prove_links(links: &[RouterLink])
    ensures { AllByRecursion LinkIsTyped links.now }
{
    for link in links {
        prove_link(link);
    }
}

fn prove_router(router: &RouterLsa)
    ensures { RouterIsTyped router.now }
{
    let _flags = router.flags;
    prove_links(router.links.as_slice());
}

/// For the prover alone: tells it that Router IDs are numbers of 32 bits. It does nothing at run
/// time.
pub fn prove_router_ids(routers: &[RouterId])
    ensures { AllByRecursion IsRouterId routers.now }
{
    for router in routers {
        let _number = router.number();
    }
}

fn prove_summary_metric(metric: &SummaryTos)
    ensures { SummaryTosIsTyped metric.now }
{
    let _tos = metric.tos;
}

fn prove_summary_metrics(metrics: &[SummaryTos])
    ensures { AllByRecursion SummaryTosIsTyped metrics.now }
{
    for metric in metrics {
        prove_summary_metric(metric);
    }
}

fn prove_summary(summary: &SummaryLsa)
    ensures { SummaryIsTyped summary.now }
{
    let _mask = summary.mask.bits();
    prove_summary_metrics(summary.tos.as_slice());
}

fn prove_block(block: &ExternalTos)
    ensures { ExternalTosIsTyped block.now }
{
    let _tos = block.tos;
    let _forwarding = block.forwarding.bits();
    let _tag = block.tag;
}

fn prove_blocks(blocks: &[ExternalTos])
    ensures { AllByRecursion ExternalTosIsTyped blocks.now }
{
    for block in blocks {
        prove_block(block);
    }
}

fn prove_external(external: &ExternalLsa)
    ensures { ExternalIsTyped external.now }
{
    let _mask = external.mask.bits();
    let _forwarding = external.forwarding.bits();
    let _tag = external.tag;
    prove_blocks(external.tos.as_slice());
}

impl LsaBody {
    /// For the prover alone: tells it that every field is in the range of its type. It does nothing
    /// at run time.
    ///
    /// The types don't ensure that a list is no longer than its count can say, nor that a metric of
    /// three bytes is below 2^24.
    pub fn prove_ranges(&self)
        ensures { BodyIsTyped self.now }
    {
        match self {
            LsaBody::Router(router) => prove_router(router),
            LsaBody::Network(network) => {
                let _mask = network.mask.bits();
                prove_router_ids(network.attached.as_slice());
            }
            LsaBody::NetworkSummary(summary) => prove_summary(summary),
            LsaBody::RouterSummary(summary) => prove_summary(summary),
            LsaBody::External(external) => prove_external(external),
        }
    }
}
