// The calls on a channel table. C lends each buffer by itself and takes a number for an answer, so these are functions
// of many parameters, and each turns a refusal into its number by a `match`: an inner function for `?` would have every
// clause twice.
ghost use Rattle.std.specs.Prelude.{◌≡◌, ◌≤◌, cond, []};
ghost use Rattle.mesh.specs.Numbers.{number_of};
ghost use Rattle.channel_laws.specs.declared.calls.Call.TheVariants.{Move};
ghost use Rattle.channel_laws.specs.Calls.{clear_refusal, outcome, ports_reply};
ghost use Rattle.channel_laws.specs.Table.{state};
ghost use Rattle.channels.specs.Results.{clearing, collection, injection, result_of};
ghost use Rattle.schemes.specs.Schemes.{scheme_reply};
ghost use Rattle.firmware.specs.Opening.{Called, code};
ghost use Rattle.firmware.specs.Tables.{bit, bits_after, handed, port_bits};

use crate::opening::{code, open};
use crate::shapes::Stack;
use channel_laws::{Ports, Record};
use channels::{PlannedStack, clear};
use mesh::Router;

// Empties every record of the routers' buffers.
#[unsafe(no_mangle)]
pub extern "C" fn tulgravyn_clear(stack: &Stack, table: &mut [Record]) -> u8
    ensures { Called stack.now (λ s _. (result ≡ code (result_of (clear_refusal (state s [] [] table.old)))) × (table.new ≡ clearing s table.old (clear_refusal (state s [] [] table.old)))) (λ x. (result ≡ number_of x) × (table.new ≡ table.old)) }
{
    match open(*stack) {
        Ok(opened) => code(clear(opened.sizes, table)),
        Err(refusal) => refusal.number(),
    }
}

// Injects a packet into its source's Local buffer.
#[unsafe(no_mangle)]
pub extern "C" fn tulgravyn_inject(
    stack: &Stack,
    map: &[u8],
    bytes: &[u8],
    table: &mut [Record],
    source: &Router,
    destination: &Router,
    tag: u32,
) -> u8
    ensures { Called stack.now (λ s _. (result ≡ code (injection (state s map.now bytes.now table.old) source.now destination.now tag).answer) × (table.new ≡ (injection (state s map.now bytes.now table.old) source.now destination.now tag).after.table)) (λ x. (result ≡ number_of x) × (table.new ≡ table.old)) }
{
    match open(*stack) {
        Ok(opened) => {
            let stack = PlannedStack {
                sizes: opened.sizes,
                map,
                bytes,
            };
            code(stack.inject(table, *source, *destination, tag))
        }
        Err(refusal) => refusal.number(),
    }
}

// Carries a packet out of its buffer by a permitted port.
#[unsafe(no_mangle)]
pub extern "C" fn tulgravyn_move(
    stack: &Stack,
    map: &[u8],
    bytes: &[u8],
    table: &mut [Record],
    router: &Router,
    buffer: u8,
    port: u8,
) -> u8
    ensures { Called stack.now (λ s f. (result ≡ code (outcome (scheme_reply f) (state s map.now bytes.now table.old) (Move router.now buffer port)).answer) × (table.new ≡ (outcome (scheme_reply f) (state s map.now bytes.now table.old) (Move router.now buffer port)).after.table)) (λ x. (result ≡ number_of x) × (table.new ≡ table.old)) }
{
    match open(*stack) {
        Ok(opened) => {
            let stack = PlannedStack {
                sizes: opened.sizes,
                map,
                bytes,
            };
            code(stack.move_packet(&opened.scheme, table, *router, buffer, port))
        }
        Err(refusal) => refusal.number(),
    }
}

// Hands out a packet that is at its destination in `packet`, which stays where the call is refused.
#[unsafe(no_mangle)]
pub extern "C" fn tulgravyn_collect(
    stack: &Stack,
    map: &[u8],
    bytes: &[u8],
    table: &mut [Record],
    router: &Router,
    buffer: u8,
    packet: &mut Record,
) -> u8
    ensures { Called stack.now (λ s _. (result ≡ code (collection (state s map.now bytes.now table.old) router.now buffer).answer) × (table.new ≡ (collection (state s map.now bytes.now table.old) router.now buffer).after.table) × (packet.new ≡ handed packet.old (collection (state s map.now bytes.now table.old) router.now buffer).answer)) (λ x. (result ≡ number_of x) × (table.new ≡ table.old) × (packet.new ≡ packet.old)) }
{
    match open(*stack) {
        Ok(opened) => {
            let stack = PlannedStack {
                sizes: opened.sizes,
                map,
                bytes,
            };
            match stack.collect(table, *router, buffer) {
                Ok(record) => {
                    *packet = record;
                    0
                }
                Err(refusal) => refusal.number(),
            }
        }
        Err(refusal) => refusal.number(),
    }
}

// C has a set of ports as bits.
fn bit(set: bool, value: u8) -> u8
    ensures is { result ≡ bit set value }
    ensures most { result ≤ value }
{
    if set { value } else { 0 }
}

// Bit n is that of port n.
fn port_bits(ports: Ports) -> u8
    ensures { result ≡ port_bits ports }
{
    let Ports { planar, up, down } = ports;
    bit(planar.east, 1)
        + bit(planar.west, 2)
        + bit(planar.north, 4)
        + bit(planar.south, 8)
        + bit(up, 16)
        + bit(down, 32)
}

// Writes the ports that a packet is permitted into `bits`, which stays where the call is refused.
#[unsafe(no_mangle)]
pub extern "C" fn tulgravyn_ports(
    stack: &Stack,
    map: &[u8],
    bytes: &[u8],
    table: &[Record],
    router: &Router,
    buffer: u8,
    bits: &mut u8,
) -> u8
    ensures { Called stack.now (λ s f. (result ≡ code (ports_reply (scheme_reply f) (state s map.now bytes.now table.now) router.now buffer)) × (bits.new ≡ bits_after bits.old (ports_reply (scheme_reply f) (state s map.now bytes.now table.now) router.now buffer))) (λ x. (result ≡ number_of x) × (bits.new ≡ bits.old)) }
{
    match open(*stack) {
        Ok(opened) => {
            let stack = PlannedStack {
                sizes: opened.sizes,
                map,
                bytes,
            };
            match stack.ports(&opened.scheme, table, *router, buffer) {
                Ok(permitted) => {
                    *bits = port_bits(permitted);
                    0
                }
                Err(refusal) => refusal.number(),
            }
        }
        Err(refusal) => refusal.number(),
    }
}
