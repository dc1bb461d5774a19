use std::alloc::AllocError;
use std::fmt::Write;
use vm_law::{ChainList, Kind, Request};
use vm_vblk::Pulled;
use vq_ring::Chain;

/// A chain: its head and its descriptors.
fn print_list(chain: &ChainList, out: &mut String) -> Result<(), AllocError> {
    write!(out, "good:{:x}", chain.head)?;
    for (place, descriptor) in chain.descriptors.as_slice().iter().enumerate() {
        out.push(if place == 0 { ':' } else { ',' })?;
        write!(
            out,
            "{:x}+{:x}+{:x}",
            descriptor.addr, descriptor.len, descriptor.flags
        )?;
    }
    Ok(())
}

/// What stands next in a queue.
pub fn print_chain(chain: &Chain, out: &mut String) -> Result<(), AllocError> {
    match chain {
        Chain::None => out.push_str("none"),
        Chain::Good(chain) => print_list(chain, out),
        Chain::Bad => out.push_str("bad"),
    }
}

/// A request.
fn print_request(request: &Request, out: &mut String) -> Result<(), AllocError> {
    out.push_str(match request.kind {
        Kind::Read => "read",
        Kind::Write => "write",
        Kind::Flush => "flush",
    })?;
    write!(out, ":{:x}:{:x}", request.head, request.status_at)?;
    write!(out, ":{:x}:{:x}:", request.start, request.count)?;
    for (place, segment) in request.segments.as_slice().iter().enumerate() {
        if place > 0 {
            out.push(',')?;
        }
        write!(out, "{:x}+{:x}", segment.addr, segment.len)?;
    }
    Ok(())
}

/// What became of a chain.
pub fn print_pulled(pulled: &Pulled, out: &mut String) -> Result<(), AllocError> {
    match pulled {
        Pulled::Request(request) => print_request(request, out),
        Pulled::Answered => out.push_str("answered"),
        Pulled::Broken => out.push_str("broken"),
    }
}
