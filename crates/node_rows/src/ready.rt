//! What a node must be like before its exchange begins.
ghost use Rattle.std.specs.Prelude.{◌≡◌, ◌≤◌, true, length};
ghost use Rattle.guards_model.specs.Channels.{has};
ghost use Rattle.guards_nodes.specs.NodeStates.{running, RunningValue};

use channel_node::Node;

/// Whether the channel of a node, if it runs, is one of at least three active ones.
pub fn is_ready(node: &Node) -> bool
    ensures mine { result ≡ true → (r : RunningValue) → node.now.state ≡ running r →
        has r.control.active node.now.channel ≡ true }
    ensures some { result ≡ true → (r : RunningValue) → node.now.state ≡ running r → 3 ≤ length r.control.active }
{
    match node.control() {
        None => true,
        Some(control) => control.active.has(node.channel()) && control.active.count() >= 3,
    }
}
