ghost use Rattle.std.specs.Prelude.{◌≡◌, Some, IsSome, IsTrue};
ghost use Rattle.vm_lapic.specs.Apic as spec;
ghost use Rattle.vm_lapic.specs.declared.register.Register.{Register};
ghost use Rattle.vm_lapic.specs.Window as window;
ghost use Rattle.vm_lapic.specs.Saved as form;

use crate::command;
use crate::effect::{LapicEffect, Posted};
use crate::register::Register;
use std::marker::Model;
use vm_law::LapicState;
use vm_vectors::VectorSet;

/// The version register: an integrated APIC with six entries in its local vector table.
const VERSION: u32 = 0x0005_0014;

/// A local APIC. Contracts see it as a record of its registers, with IRR, ISR and TMR as sets.
///
/// Source: Intel SDM volume 3, chapter 10.
#[derive(Drop)]
pub struct Lapic {
    cpu: u8,
    irr: VectorSet,
    isr: VectorSet,
    tmr: VectorSet,
    tpr: u8,
    svr: u32,
    icr_low: u32,
    icr_high: u32,
    lvt_timer: u32,
    timer_initial: u32,
    timer_divide: u32,
}

impl Model for Lapic {
    ghost use Rattle.std.specs.Prelude.{◌≡◌};
    ghost use Rattle.std.specs.Int.{bit_at};
    ghost use Rattle.vm_lapic.specs.Apic.{Apic, apic_code, NoneReserved};

    ghost Value = { Apic };

    ghost coded = { apic_code };

    ghost view = { λ l. record {
      cpu = l.cpu;
      irr = l.irr;
      isr = l.isr;
      tmr = l.tmr;
      tpr = l.tpr;
      svr = l.svr;
      icr_low = l.icr_low;
      icr_high = l.icr_high;
      lvt_timer = l.lvt_timer;
      timer_initial = l.timer_initial;
      timer_divide = l.timer_divide;
    } };

    ghost invariant = { λ l. NoneReserved l.irr × NoneReserved l.isr × (bit_at l.icr_low 12 ≡ 0) };
}

impl Lapic {
    /// The APIC of vCPU `cpu` after a reset: disabled, with nothing requested and its timer masked.
    #[tactic(auto, unfolding(crate::specs::Apic::at_start))]
    pub fn new(cpu: u8) -> Lapic
        ensures { result ≡ spec.at_start cpu }
    {
        Lapic {
            cpu,
            irr: VectorSet::empty(),
            isr: VectorSet::empty(),
            tmr: VectorSet::empty(),
            tpr: 0,
            svr: 0xFF,
            icr_low: 0,
            icr_high: 0,
            lvt_timer: 0x1_0000,
            timer_initial: 0,
            timer_divide: 0,
        }
    }

    /// An equal APIC.
    pub fn copy(&self) -> Lapic
        ensures { result ≡ self.now }
    {
        Lapic {
            cpu: self.cpu,
            irr: self.irr.copy(),
            isr: self.isr.copy(),
            tmr: self.tmr.copy(),
            tpr: self.tpr,
            svr: self.svr,
            icr_low: self.icr_low,
            icr_high: self.icr_high,
            lvt_timer: self.lvt_timer,
            timer_initial: self.timer_initial,
            timer_divide: self.timer_divide,
        }
    }

    /// Requests a vector: `Illegal` below 16, else `Ignored` where the APIC is disabled, else `Merged` where the vector
    /// is requested already, else `Set`.
    ///
    /// Source: Intel SDM volume 3, sections 10.5.2, 10.8.4 and 10.9.
    #[tactic(auto, unfolding(crate::specs::Apic::post_answer, crate::specs::Apic::posted))]
    pub fn post(&mut self, vector: u8) -> Posted
        ensures answer { result ≡ spec.post_answer self.old vector }
        ensures state { self.new ≡ spec.posted self.old vector }
    {
        if vector < 16 {
            return Posted::Illegal;
        }
        if self.svr >> 8 & 1 == 0 {
            return Posted::Ignored;
        }
        if self.irr.has(vector) {
            return Posted::Merged;
        }
        self.irr.insert(vector);
        Posted::Set
    }

    /// The vector that may be delivered: the highest that is requested, where its class is above that of PPR.
    ///
    /// Source: Intel SDM volume 3, section 10.8.3.1.
    #[tactic(auto, unfolding(crate::specs::Apic::ready))]
    pub fn deliverable(&self) -> Option<u8>
        ensures { result ≡ spec.ready self.now }
    {
        let vector = self.irr.highest()?;
        if vector / 16 > self.ppr() / 16 {
            Some(vector)
        } else {
            None
        }
    }

    /// Takes the deliverable vector into service.
    #[tactic(auto, unfolding(crate::specs::Apic::serviced))]
    pub fn service(&mut self) -> u8
        requires { IsSome (spec.ready self.old) }
        ensures vector { spec.ready self.old ≡ Some result }
        ensures state { self.new ≡ spec.serviced self.old result }
    {
        let vector = self.deliverable().unwrap_or(0);
        self.irr.remove(vector);
        self.isr.insert(vector);
        vector
    }

    /// What a read of 32 bits gives at an offset of the window; 0 where no register stands.
    #[tactic(auto, unfolding(crate::specs::Window::read_of))]
    pub fn read(&self, offset: u32) -> u32
        ensures value { result ≡ window.read_of self.now offset }
        ensures register { (r : Register) → IsTrue (window.is_register r) → offset ≡ window.offset_of r →
            result ≡ window.value_of self.now r }
    {
        match Register::at(offset) {
            Some(register) => self.value(register),
            None => 0,
        }
    }

    /// A write of 32 bits at an offset of the window, and what it does beyond the APIC.
    #[tactic(auto, unfolding(crate::specs::Window::written, crate::specs::Window::effect_of))]
    pub fn write(&mut self, offset: u32, value: u32) -> LapicEffect
        ensures state { self.new ≡ window.written self.old offset value }
        ensures effect { result ≡ window.effect_of self.old offset value }
    {
        match Register::at(offset) {
            Some(register) => self.set(register, value),
            None => LapicEffect::Nothing,
        }
    }

    /// Sets which vectors are level-triggered.
    pub fn set_tmr(&mut self, set: VectorSet)
        ensures { self.new ≡ record self.old { tmr = set } }
    {
        self.tmr = set;
    }

    /// The saved state, from which `from_saved` makes the same APIC.
    #[tactic(auto, unfolding(crate::specs::Saved::saved_of, crate::specs::Saved::apic_of))]
    pub fn saved(&self) -> LapicState
        ensures state { result ≡ form.saved_of self.now }
        ensures saved { form.IsSaved result }
        ensures inverse { form.apic_of result ≡ self.now }
    {
        LapicState {
            cpu: self.cpu,
            irr: self.irr.to_bytes(),
            isr: self.isr.to_bytes(),
            tmr: self.tmr.to_bytes(),
            tpr: self.tpr,
            svr: self.svr,
            icr: (self.icr_high as u64) << 32 | self.icr_low as u64,
            lvt_timer: self.lvt_timer,
            timer_initial: self.timer_initial,
            timer_divide: self.timer_divide,
        }
    }

    /// The APIC of a saved state.
    #[tactic(auto, unfolding(crate::specs::Saved::saved_of, crate::specs::Saved::apic_of))]
    pub fn from_saved(state: &LapicState) -> Lapic
        requires { form.IsSaved state.now }
        ensures chip { result ≡ form.apic_of state.now }
        ensures inverse { form.saved_of result ≡ state.now }
    {
        Lapic {
            cpu: state.cpu,
            irr: VectorSet::from_bytes(&state.irr),
            isr: VectorSet::from_bytes(&state.isr),
            tmr: VectorSet::from_bytes(&state.tmr),
            tpr: state.tpr,
            svr: state.svr,
            icr_low: (state.icr & 0xFFFF_FFFF) as u32,
            icr_high: (state.icr >> 32) as u32,
            lvt_timer: state.lvt_timer,
            timer_initial: state.timer_initial,
            timer_divide: state.timer_divide,
        }
    }

    /// The processor priority register.
    #[tactic(auto, unfolding(crate::specs::Apic::isrv, crate::specs::Apic::ppr))]
    fn ppr(&self) -> u8
        ensures { result ≡ spec.ppr self.now }
    {
        let in_service = self.isr.highest().unwrap_or(0);
        if self.tpr / 16 >= in_service / 16 {
            self.tpr
        } else {
            in_service / 16 * 16
        }
    }

    /// What a register reads.
    #[tactic(auto, unfolding(crate::specs::Window::value_of))]
    fn value(&self, register: Register) -> u32
        requires { IsTrue (window.is_register register) }
        ensures { result ≡ window.value_of self.now register }
    {
        match register {
            Register::Id => (self.cpu as u32) << 24,
            Register::Version => VERSION,
            Register::Tpr => self.tpr as u32,
            Register::Ppr => self.ppr() as u32,
            Register::Svr => self.svr,
            Register::Isr(word) => self.isr.word(word),
            Register::Tmr(word) => self.tmr.word(word),
            Register::Irr(word) => self.irr.word(word),
            Register::IcrLow => self.icr_low,
            Register::IcrHigh => self.icr_high,
            Register::LvtTimer => self.lvt_timer,
            Register::InitialCount => self.timer_initial,
            Register::DivideConfiguration => self.timer_divide,
            Register::Eoi | Register::Esr | Register::CurrentCount => 0,
        }
    }

    /// Writes a register; a read-only one stays.
    #[tactic(auto, unfolding(crate::specs::Window::after_write, crate::specs::Window::write_effect))]
    fn set(&mut self, register: Register, value: u32) -> LapicEffect
        ensures state { self.new ≡ window.after_write self.old value register }
        ensures effect { result ≡ window.write_effect self.old value register }
    {
        match register {
            Register::Tpr => self.tpr = (value & 0xFF) as u8,
            Register::Svr => self.svr = value,
            Register::IcrHigh => self.icr_high = value,
            Register::LvtTimer => self.lvt_timer = value,
            Register::InitialCount => self.timer_initial = value,
            Register::DivideConfiguration => self.timer_divide = value,
            Register::Eoi => return self.end(),
            Register::IcrLow => {
                self.icr_low = command::kept(value);
                return LapicEffect::Send(command::message(self.cpu, value, self.icr_high));
            }
            _ => {}
        }
        LapicEffect::Nothing
    }

    /// Ends the service of the highest vector.
    #[tactic(auto, unfolding(crate::specs::Apic::ended, crate::specs::Apic::end_effect))]
    fn end(&mut self) -> LapicEffect
        ensures state { self.new ≡ spec.ended self.old }
        ensures effect { result ≡ spec.end_effect self.old }
    {
        let Some(vector) = self.isr.highest() else {
            return LapicEffect::Nothing;
        };
        self.isr.remove(vector);
        LapicEffect::Eoi {
            vector,
            level: self.tmr.has(vector),
        }
    }
}
