// Lists the nodes of a plate into a list of six entries that it owns, and prints the refusal and the number of nodes, each entry (level, parent, area,
// anchor) after a bar, and an entry that `node_at` reads. An entry holds 9 before.
#![tactic(auto)]

use plate_entries::Node;
use plate_refusals::PlateHead;
use plate_tree::NodeList;
use std::io;
use test_case_lines::lists::{print_bar, print_number, print_numbers};

fn print_node(rt: &impl Print, node: Node) -> io::Result<()> {
    print_bar(rt)?;
    print_numbers(rt, &[node.level, node.parent, node.area, node.anchor])
}

// Prints what was answered, what the list holds, and the entry that was read.
fn show(rt: &impl Print, answer: NodeList, list: &[Node], one: Node) -> io::Result<()> {
    print_number(rt, answer.refusal as u64)?;
    print_number(rt, answer.count as u64)?;
    for node in list {
        print_node(rt, *node)?;
    }
    print_node(rt, one)
}

// Owns a list, lends it to be filled and to be read, and shows it.
pub fn list_plate(
    rt: &impl Print,
    image: &[u16],
    plate: PlateHead,
    work: &mut [u32],
    at: usize,
) -> io::Result<()> {
    let unwritten = Node {
        level: 9,
        parent: 9,
        area: 9,
        anchor: 9,
    };
    let mut list = [unwritten; 6];
    let answer = plate_entries::node_entries(image, plate, &mut list, work);
    let one = plate_entries::node_at(&list, at);
    show(rt, NodeList::from(answer), &list, one)
}
