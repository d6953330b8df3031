//! Flooding over the links of an area.
ghost use Rattle.std.specs.Prelude.{◌≡◌, ◌≤◌, ◌||◌, IfOk, None, length, map};
ghost use Rattle.words.specs.Constants.{max_age};
ghost use Rattle.lsdb.specs.Copies.{has_just_aged_out, lsa_now};
ghost use Rattle.adjacency.specs.Floods.{is_any};
ghost use Rattle.received.specs.Flooding.{flood_to, is_incoming};
ghost use Rattle.received.specs.AreaStates.{stepped_links, stepping_sends};
ghost use Rattle.received.specs.Updates.{flood_and_install};
ghost use Rattle.area.specs.Doing.{AreaDoes, LinksDo};
ghost use Rattle.area.specs.Drafted.{nothing_at};
ghost use Rattle.area.specs.Links.{age_outcome, draft_of, flood_new_max_age, flooded_key};
ghost use Rattle.area.specs.Links.{committed_link, originate_outcome, present, with_no_sends};

use crate::area::Area;
use crate::link::Link;
use crate::on_links::delay_acknowledgment;
use adjacency::{DatabaseCopy, Draft};
use lsa::Lsa;
use lsdb::CopyTimes;
use std::alloc::{AllocError, Global};
use words::{Key, Second};

// Whether an LSA that came in at the first interface, if at any, came in at the second.
fn is_incoming(incoming: Option<usize>, interface: usize) -> bool
    ensures { result ≡ is_incoming incoming interface }
{
    match incoming {
        None => false,
        Some(incoming) => incoming == interface,
    }
}

// Whether a Link State Update was sent over an earlier link or over this one.
fn was_sent(before: bool, here: bool) -> bool
    ensures { result ≡ (before || here) }
{
    before || here
}

// Floods the copy over all links. Returns whether any Link State Update is sent.
fn flood_links(
    alloc: Global,
    moment: Second,
    incoming: Option<usize>,
    copy: &DatabaseCopy<'_>,
    links: &mut [Link],
) -> Result<bool, AllocError>
    ensures does { LinksDo (stepped_links (flood_to moment incoming (lsa_now moment copy.now)))
        (stepping_sends (flood_to moment incoming (lsa_now moment copy.now)))
        links.old links.new result }
    ensures sent { IfOk result (λ sent. sent
        ≡ is_any (stepping_sends (flood_to moment incoming (lsa_now moment copy.now))
        (map present links.old))) }
{
    let mut sent = false;
    for i in 0..links.len() {
        let came_in = is_incoming(incoming, i + 1);
        let one = links[i].flood(alloc, moment, came_in, copy)?;
        sent = was_sent(sent, one);
    }
    Ok(sent)
}

// Floods the LSA over all links as the copy that is going to be installed, so that it needn't be
// searched for afterwards: what comes of it is as if it were installed first. Returns whether any
// Link State Update is sent.
fn flood_received(
    alloc: Global,
    moment: Second,
    incoming: Option<usize>,
    lsa: &Lsa,
    links: &mut [Link],
) -> Result<bool, AllocError>
    requires age { lsa.now.header.age ≤ max_age }
    ensures does { LinksDo (stepped_links (flood_to moment incoming lsa.now))
        (stepping_sends (flood_to moment incoming lsa.now))
        links.old links.new result }
    ensures sent { IfOk result (λ sent. sent
        ≡ is_any (stepping_sends (flood_to moment incoming lsa.now) (map present links.old))) }
{
    let header = lsa.header();
    let times = CopyTimes {
        age: header.age,
        stored: moment,
        received: Some(moment),
        sent: None,
    };
    let copy = DatabaseCopy { lsa, times };
    flood_links(alloc, moment, incoming, &copy, links)
}

fn has_just_aged_out(before: Second, moment: Second, copy: &DatabaseCopy<'_>) -> bool
    ensures { result ≡ has_just_aged_out before moment copy.now }
{
    copy.is_aged_out(moment) && !copy.is_aged_out(before)
}

impl Area {
    // Floods the copy of this key to every neighbor, if there is one, and marks it as sent if it
    // was.
    fn flood(&mut self, alloc: Global, moment: Second, key: &Key) -> Result<(), AllocError>
        ensures { AreaDoes (flooded_key moment None key.now) self.old self.new result }
    {
        let Some(copy) = self.database.get(key) else {
            return Ok(());
        };
        let header = copy.header(moment);
        let sent = flood_links(alloc, moment, None, &copy, &mut self.links)?;
        if sent {
            let sent_key = header.key();
            return self.database.mark_sent(moment, &sent_key);
        }
        Ok(())
    }

    /// Floods an LSA of the case `Newer` that was received at the interface with this number,
    /// delays its acknowledgment, and installs it (RFC 2328, section 13, step 5). Processing a
    /// self-originated LSA further is up to the caller.
    ///
    /// # Errors
    /// `AllocError` if an allocation is refused.
    pub fn flood_and_install(
        &mut self,
        alloc: Global,
        moment: Second,
        interface: usize,
        lsa: Lsa,
    ) -> Result<(), AllocError>
        requires first { 1 ≤ interface }
        requires last { interface ≤ length self.old.present.links }
        ensures { AreaDoes (λ a. flood_and_install moment interface lsa (with_no_sends a))
            self.old self.new result }
    {
        // For the prover alone, by what the call ensures.
        lsa.prove_age();
        let header = lsa.header();
        let key = header.key();
        let sent = flood_received(alloc, moment, Some(interface), &lsa, &mut self.links)?;
        delay_acknowledgment(interface, header, &mut self.links)?;
        self.database.install(moment, lsa, Some(moment))?;
        if sent {
            return self.database.mark_sent(moment, &key);
        }
        Ok(())
    }

    /// Installs an LSA that this router originated (RFC 2328, section 12.4), and floods it to every
    /// neighbor.
    ///
    /// # Errors
    /// `AllocError` if an allocation is refused.
    pub fn install_and_flood_own(
        &mut self,
        alloc: Global,
        moment: Second,
        lsa: Lsa,
    ) -> Result<(), AllocError>
        ensures { AreaDoes (originate_outcome moment lsa) self.old self.new result }
    {
        // For the prover alone, by what the call ensures.
        lsa.prove_age();
        let header = lsa.header();
        let key = header.key();
        self.database.install(moment, lsa, None)?;
        self.flood(alloc, moment, &key)
    }

    /// Sets the copy of this key to MaxAge, and floods it to every neighbor (RFC 2328, section
    /// 14.1). Without a copy nothing changes.
    ///
    /// # Errors
    /// `AllocError` if an allocation is refused.
    pub fn age_prematurely(
        &mut self,
        alloc: Global,
        moment: Second,
        key: &Key,
    ) -> Result<(), AllocError>
        ensures { AreaDoes (age_outcome moment key.now) self.old self.new result }
    {
        self.database.age_prematurely(moment, key)?;
        self.flood(alloc, moment, key)
    }

    /// Floods a copy of this key that has reached MaxAge since the moment `before` to every
    /// neighbor (RFC 2328, section 14). Without such a copy nothing changes.
    ///
    /// # Errors
    /// `AllocError` if an allocation is refused.
    pub fn flood_new_max_age(
        &mut self,
        alloc: Global,
        before: Second,
        moment: Second,
        key: &Key,
    ) -> Result<(), AllocError>
        ensures { AreaDoes (flood_new_max_age before moment key.now) self.old self.new result }
    {
        let Some(copy) = self.database.get(key) else {
            return Ok(());
        };
        let came = has_just_aged_out(before, moment, &copy);
        if came {
            return self.flood(alloc, moment, key);
        }
        Ok(())
    }
}

/// Makes what is present at each link what a later refusal rolls back to; what was drafted is
/// gone.
pub fn commit_links(links: &mut [Link])
    ensures present { map present links.new ≡ map present links.old }
    ensures committed { map committed_link links.new ≡ map present links.old }
    ensures drafts { map draft_of links.new ≡ nothing_at (map present links.old) }
{
    for i in 0..links.len() {
        links[i].commit();
    }
}

/// Makes each link what it was at the last commit; what was drafted is gone.
pub fn roll_back_links(links: &mut [Link])
    ensures present { map present links.new ≡ map committed_link links.old }
    ensures committed { map committed_link links.new ≡ map committed_link links.old }
    ensures drafts { map draft_of links.new ≡ nothing_at (map committed_link links.old) }
{
    for i in 0..links.len() {
        links[i].roll_back();
    }
}

/// Takes what was drafted away, in the order of the interfaces, so that nothing is left.
///
/// # Errors
/// `AllocError` if an allocation is refused.
pub fn take_drafts(alloc: Global, links: &mut [Link]) -> Result<Vec<Draft>, AllocError>
    ensures drafts { IfOk result (λ drafts. drafts.items ≡ map draft_of links.old) }
    ensures present { map present links.new ≡ map present links.old }
    ensures committed { map committed_link links.new ≡ map committed_link links.old }
    ensures rest { IfOk result (λ _. map draft_of links.new ≡ nothing_at (map present links.old)) }
{
    let mut drafts = Vec::new(alloc);
    for i in 0..links.len() {
        let draft = links[i].take_draft(alloc);
        drafts.push(draft)?;
    }
    Ok(drafts)
}
