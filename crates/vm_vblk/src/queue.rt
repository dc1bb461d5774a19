ghost use Rattle.std.specs.Prelude.{◌≡◌, ◌≤◌, ◌<◌, ◌+◌, IsTrue, length};
ghost use Rattle.vm_law.specs.Memory.{KeepsCode};
ghost use Rattle.vq_ring.specs.Ring.{lies_in};
ghost use Rattle.vq_ring.specs.Chain.{AllUsable};
ghost use Rattle.vblk_req.specs.Request.{IfAccept, IsSound};
ghost use Rattle.vm_vblk.specs.Window as window;
ghost use Rattle.vm_vblk.specs.Queue as spec;

use crate::pulled::Pulled;
use crate::window::Window;
use vblk_req::{Ask, request};
use vm_law::{Bytes, ChainList};
use vq_ring::{Chain, next_chain, push_used, wants_interrupt};

/// The interrupt of a used buffer, a bit of the interrupt status.
const USED_BUFFER: u8 = 1;

/// How many bytes a request's header has.
const HEADER: u32 = 16;

/// What a chain asks for. Its header is read where its first buffer has the length of one.
#[tactic(auto, unfolding(crate::specs::Queue::asked_by, vblk_req::specs::Request::asked, vblk_req::specs::Request::is_request), using(crate::proofs::Asked::header_inside))]
fn ask_of<B: Bytes>(bytes: &B, chain: &ChainList, sectors: u64, ro: bool) -> Ask
    requires { AllUsable (B.memory bytes.now) chain.now.descriptors.items }
    ensures value { result ≡ spec.asked_by (B.memory bytes.now) sectors ro chain.now }
    ensures sound { IfAccept result (IsSound sectors) }
    ensures fits { spec.AskFits (B.memory bytes.now) result }
{
    let descriptors = chain.descriptors.as_slice();
    if descriptors.len() == 0 || descriptors[0].len != HEADER {
        return Ask::Bad;
    }
    let mut header = [0; 16];
    bytes.read(descriptors[0].addr, &mut header);
    request(chain, &header, sectors, ro)
}

impl Window {
    /// Counts a chain that was completed, and sets the interrupt of a used buffer unless the driver wants none.
    #[tactic(auto, unfolding(crate::specs::Queue::counted))]
    fn count_used<B: Bytes>(&mut self, bytes: &B)
        requires { IsTrue (lies_in (window.ring_of self.old) (B.memory bytes.now)) }
        ensures { self.new ≡ spec.counted (B.memory bytes.now) self.old }
    {
        if wants_interrupt(bytes, &self.ring()) {
            self.state.interrupt_status |= USED_BUFFER;
        }
        self.state.used_index = self.state.used_index.wrapping_add(1);
    }

    /// Counts a chain that was taken, and keeps the notification only where another one waits.
    #[tactic(auto, unfolding(crate::specs::Queue::taken))]
    fn count_taken<B: Bytes>(&mut self, bytes: &B)
        requires { IsTrue (lies_in (window.ring_of self.old) (B.memory bytes.now)) }
        ensures { self.new ≡ spec.taken (B.memory bytes.now) self.old }
    {
        self.state.last_avail = self.state.last_avail.wrapping_add(1);
        if !vq_ring::waits(bytes, &self.ring(), self.state.last_avail) {
            self.state.notified = false;
        }
    }

    /// Completes the chain with this head: it writes the status byte, hands the chain back as one into whose buffers `len`
    /// bytes were written, and sets the interrupt of a used buffer unless the driver wants none.
    ///
    /// The queue is ready, its tables lie well, and the status byte is in RAM above the code. There is to be room for six
    /// pages.
    ///
    /// Source: OASIS virtio 1.2, sections 2.7.14 and 5.2.6.
    #[tactic(auto, unfolding(crate::specs::Queue::completed, crate::specs::Queue::counted), using(crate::proofs::Writes::writes))]
    pub fn finish<B: Bytes>(
        &mut self,
        bytes: &mut B,
        head: u16,
        status_at: u64,
        status: u8,
        len: u32,
    )
        requires ready { IsTrue self.old.queue_ready }
        requires ring { IsTrue (lies_in (window.ring_of self.old) (B.memory bytes.old)) }
        requires above_code { (B.memory bytes.old).code ≤ status_at }
        requires in_ram { status_at < length (B.memory bytes.old).bytes }
        requires room { 6 ≤ B.spare bytes.old }
        ensures memory { B.memory bytes.new ≡ spec.completed (B.memory bytes.old) self.old head status_at status len }
        ensures window { self.new ≡ spec.counted (B.memory bytes.new) self.old }
        ensures lies { window.LiesOver (B.memory bytes.new) self.new }
        ensures kept { KeepsCode (B.memory bytes.old) (B.memory bytes.new) }
        ensures room { B.spare bytes.old ≤ B.spare bytes.new + 6 }
    {
        bytes.write(status_at, &[status]);
        push_used(bytes, &self.ring(), self.state.used_index, head, len);
        self.count_used(bytes);
    }

    /// Goes on from what a chain with this head asks for.
    #[tactic(auto, unfolding(crate::specs::Queue::pulled_ask, crate::specs::Queue::counted, crate::specs::Queue::taken))]
    fn take_up<B: Bytes>(&mut self, bytes: &mut B, head: u16, ask: Ask) -> Pulled
        requires ready { IsTrue self.old.queue_ready }
        requires ring { IsTrue (lies_in (window.ring_of self.old) (B.memory bytes.old)) }
        requires sound { IfAccept ask (IsSound self.old.sectors) }
        requires fits { spec.AskFits (B.memory bytes.old) ask }
        requires room { 6 ≤ B.spare bytes.old }
        ensures answer { result ≡ (spec.pulled_ask (B.memory bytes.old) self.old head ask).answer }
        ensures window { self.new ≡ (spec.pulled_ask (B.memory bytes.old) self.old head ask).window }
        ensures memory { B.memory bytes.new ≡ (spec.pulled_ask (B.memory bytes.old) self.old head ask).memory }
        ensures request { spec.IfRequest result (λ q. IsSound self.old.sectors q × spec.Fits (B.memory bytes.new) q) }
        ensures lies { window.LiesOver (B.memory bytes.new) self.new }
        ensures kept { KeepsCode (B.memory bytes.old) (B.memory bytes.new) }
        ensures room { B.spare bytes.old ≤ B.spare bytes.new + 6 }
    {
        match ask {
            Ask::Accept(request) => {
                self.count_taken(bytes);
                Pulled::Request(request)
            }
            Ask::Answer { status, at } => {
                self.finish(bytes, head, at, status, 1);
                self.count_taken(bytes);
                Pulled::Answered
            }
            Ask::Bad => {
                self.break_down();
                Pulled::Broken
            }
        }
    }

    /// Takes the chain that stands next. It is a request that is to be carried out, or it is completed with a status, or
    /// it makes no sense and the device breaks: then it isn't taken. The notification is kept only where another chain
    /// waits then.
    ///
    /// The queue is ready, its tables lie well, and a chain waits. There is to be room for six pages.
    ///
    /// Source: OASIS virtio 1.2, sections 2.7.13, 2.7.14 and 5.2.6.
    #[tactic(auto, unfolding(crate::specs::Queue::pull_of, crate::specs::Queue::pulled_chain))]
    pub fn pull<B: Bytes>(&mut self, bytes: &mut B) -> Pulled
        requires waits { IsTrue (window.waits (B.memory bytes.old) self.old) }
        requires ring { IsTrue (lies_in (window.ring_of self.old) (B.memory bytes.old)) }
        requires room { 6 ≤ B.spare bytes.old }
        ensures answer { result ≡ (spec.pull_of (B.memory bytes.old) self.old).answer }
        ensures window { self.new ≡ (spec.pull_of (B.memory bytes.old) self.old).window }
        ensures memory { B.memory bytes.new ≡ (spec.pull_of (B.memory bytes.old) self.old).memory }
        ensures request { spec.IfRequest result (λ q. IsSound self.old.sectors q × spec.Fits (B.memory bytes.new) q) }
        ensures lies { window.LiesOver (B.memory bytes.new) self.new }
        ensures kept { KeepsCode (B.memory bytes.old) (B.memory bytes.new) }
        ensures room { B.spare bytes.old ≤ B.spare bytes.new + 6 }
    {
        match next_chain(bytes, &self.ring(), self.state.last_avail) {
            Chain::Good(chain) => {
                let ask = ask_of(bytes, &chain, self.state.sectors, self.state.ro);
                self.take_up(bytes, chain.head, ask)
            }
            Chain::None | Chain::Bad => {
                self.break_down();
                Pulled::Broken
            }
        }
    }
}
