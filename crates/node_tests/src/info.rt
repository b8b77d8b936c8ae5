//! What a node tells about itself, by sections.
use crate::alone::{Step, node_of, play, play_alone, start};

// A node with four nodes in its cluster file, of which quorums have two of the first three. It is node 1.
static NODES: &[u8] = b"nodes 1 2 3\nn 3\nk 1\ndelta 8\nmover 1\nlater 4\nticks 50\n";

// Node 2 is named by the first and the third tick, node 3 by the second and the third, node 4 by the first.
static TICKS: [Step; 8] = [
    Step {
        words: "client 1|INFO|cluster",
        answers: "[Frame { strings: [b\"client 1\", b\"$601\\r\\n\", b\"# Cluster\\r\\ncluster_enabled:0\\r\\n\
            cluster_state:fail\\r\\ncluster_known_nodes:4\\r\\ncluster_nodes_heard:0\\r\\n\
            cluster_calls_open:0\\r\\ncluster_moves_open:0\\r\\ncluster_open_banks:0\\r\\n\
            cluster_tags:0\\r\\ncluster_calls_given_up:0\\r\\n\
            cluster_frames_dropped:0\\r\\ncluster_frames_of_other_clusters:0\\r\\n\
            cluster_frames_malformed:0\\r\\ncluster_frames_unreadable:0\\r\\n\
            cluster_frames_not_admitted:0\\r\\ncluster_frames_not_heeded:0\\r\\n\
            cluster_node_1_heard:0\\r\\ncluster_node_2_heard:0\\r\\n\
            cluster_node_3_heard:0\\r\\ncluster_node_2_ticks_since_heard:never\\r\\n\
            cluster_node_3_ticks_since_heard:never\\r\\ncluster_node_4_heard:0\\r\\n\
            cluster_node_4_ticks_since_heard:never\\r\\n\\r\\n\", b\"\\r\\n\"] }]",
        outputs: Some(0),
    },
    Step {
        words: "tick|1|2|4",
        answers: "[]",
        outputs: Some(0),
    },
    Step {
        words: "client 1|INFO|Cluster",
        answers: "[Frame { strings: [b\"client 1\", b\"$591\\r\\n\", b\"# Cluster\\r\\ncluster_enabled:0\\r\\n\
            cluster_state:ok\\r\\ncluster_known_nodes:4\\r\\ncluster_nodes_heard:3\\r\\n\
            cluster_calls_open:0\\r\\ncluster_moves_open:0\\r\\ncluster_open_banks:0\\r\\n\
            cluster_tags:0\\r\\ncluster_calls_given_up:0\\r\\n\
            cluster_frames_dropped:0\\r\\ncluster_frames_of_other_clusters:0\\r\\n\
            cluster_frames_malformed:0\\r\\ncluster_frames_unreadable:0\\r\\n\
            cluster_frames_not_admitted:0\\r\\ncluster_frames_not_heeded:0\\r\\n\
            cluster_node_1_heard:1\\r\\ncluster_node_2_heard:1\\r\\n\
            cluster_node_3_heard:0\\r\\ncluster_node_2_ticks_since_heard:0\\r\\n\
            cluster_node_3_ticks_since_heard:never\\r\\ncluster_node_4_heard:1\\r\\n\
            cluster_node_4_ticks_since_heard:0\\r\\n\\r\\n\", b\"\\r\\n\"] }]",
        outputs: Some(0),
    },
    Step {
        words: "tick|1|3",
        answers: "[]",
        outputs: Some(0),
    },
    Step {
        words: "tick|1|3|2",
        answers: "[]",
        outputs: Some(0),
    },
    Step {
        words: "client 1|INFO|CLUSTER",
        answers: "[Frame { strings: [b\"client 1\", b\"$587\\r\\n\", b\"# Cluster\\r\\ncluster_enabled:0\\r\\n\
            cluster_state:ok\\r\\ncluster_known_nodes:4\\r\\ncluster_nodes_heard:3\\r\\n\
            cluster_calls_open:0\\r\\ncluster_moves_open:0\\r\\ncluster_open_banks:0\\r\\n\
            cluster_tags:0\\r\\ncluster_calls_given_up:0\\r\\n\
            cluster_frames_dropped:0\\r\\ncluster_frames_of_other_clusters:0\\r\\n\
            cluster_frames_malformed:0\\r\\ncluster_frames_unreadable:0\\r\\n\
            cluster_frames_not_admitted:0\\r\\ncluster_frames_not_heeded:0\\r\\n\
            cluster_node_1_heard:1\\r\\ncluster_node_2_heard:1\\r\\n\
            cluster_node_3_heard:1\\r\\ncluster_node_2_ticks_since_heard:0\\r\\n\
            cluster_node_3_ticks_since_heard:0\\r\\ncluster_node_4_heard:0\\r\\n\
            cluster_node_4_ticks_since_heard:2\\r\\n\\r\\n\", b\"\\r\\n\"] }]",
        outputs: Some(0),
    },
    Step {
        words: "tick",
        answers: "[]",
        outputs: Some(0),
    },
    Step {
        words: "client 1|INFO|cluster",
        answers: "[Frame { strings: [b\"client 1\", b\"$589\\r\\n\", b\"# Cluster\\r\\ncluster_enabled:0\\r\\n\
            cluster_state:fail\\r\\ncluster_known_nodes:4\\r\\ncluster_nodes_heard:0\\r\\n\
            cluster_calls_open:0\\r\\ncluster_moves_open:0\\r\\ncluster_open_banks:0\\r\\n\
            cluster_tags:0\\r\\ncluster_calls_given_up:0\\r\\n\
            cluster_frames_dropped:0\\r\\ncluster_frames_of_other_clusters:0\\r\\n\
            cluster_frames_malformed:0\\r\\ncluster_frames_unreadable:0\\r\\n\
            cluster_frames_not_admitted:0\\r\\ncluster_frames_not_heeded:0\\r\\n\
            cluster_node_1_heard:0\\r\\ncluster_node_2_heard:0\\r\\n\
            cluster_node_3_heard:0\\r\\ncluster_node_2_ticks_since_heard:1\\r\\n\
            cluster_node_3_ticks_since_heard:1\\r\\ncluster_node_4_heard:0\\r\\n\
            cluster_node_4_ticks_since_heard:3\\r\\n\\r\\n\", b\"\\r\\n\"] }]",
        outputs: Some(0),
    },
];

#[test]
fn ticks(rt: HostRuntime) {
    let mut node = node_of(&rt, rt.alloc(), NODES, 1);
    start(&rt, &mut node);
    play(&rt, rt.alloc(), &mut node, &TICKS);
}

// Sections come in the node's order and once each, and a section that there is not tells nothing.
static SECTIONS: [Step; 8] = [
    Step {
        words: "client 1|SET|photo|hello",
        answers: "[Frame { strings: [b\"client 1\", b\"+OK\\r\\n\"] }]",
        outputs: Some(2),
    },
    Step {
        words: "client 1|INFO|server",
        answers: "[Frame { strings: [b\"client 1\", b\"$56\\r\\n\", b\"# Server\\r\\nredis_version:1.0.0\\r\\n\
            redis_mode:standalone\\r\\n\\r\\n\", b\"\\r\\n\"] }]",
        outputs: Some(0),
    },
    Step {
        words: "client 1|info|KEYSPACE|nothing|clients|Keyspace",
        answers: "[Frame { strings: [b\"client 1\", b\"$80\\r\\n\", b\"# Clients\\r\\nconnected_clients:1\\r\\n\
            \\r\\n# Keyspace\\r\\ndb0:keys=1,expires=0,avg_ttl=0\\r\\n\\r\\n\", b\"\\r\\n\"] }]",
        outputs: Some(0),
    },
    Step {
        words: "client 1|INFO|memory|stats|persistence|replication",
        answers: "[Frame { strings: [b\"client 1\", b\"$187\\r\\n\", b\"# Memory\\r\\nused_memory_dataset:5\\r\\n\
            \\r\\n# Persistence\\r\\nloading:0\\r\\naof_enabled:1\\r\\naof_current_size:0\\r\\n\\r\\n\
            # Stats\\r\\ntotal_commands_processed:3\\r\\n\\r\\n# Replication\\r\\nrole:master\\r\\n\
            connected_slaves:0\\r\\n\\r\\n\", b\"\\r\\n\"] }]",
        outputs: Some(0),
    },
    Step {
        words: "client 1|INFO|commandstats",
        answers: "[Frame { strings: [b\"client 1\", b\"$0\\r\\n\", b\"\", b\"\\r\\n\"] }]",
        outputs: Some(0),
    },
    Step {
        words: "nonsense",
        answers: "[]",
        outputs: Some(0),
    },
    Step {
        words: "node 2|no message",
        answers: "[]",
        outputs: Some(0),
    },
    Step {
        words: "client 1|INFO|cluster",
        answers: "[Frame { strings: [b\"client 1\", b\"$409\\r\\n\", b\"# Cluster\\r\\ncluster_enabled:0\\r\\n\
            cluster_state:fail\\r\\ncluster_known_nodes:1\\r\\ncluster_nodes_heard:0\\r\\n\
            cluster_calls_open:0\\r\\ncluster_moves_open:0\\r\\ncluster_open_banks:1\\r\\n\
            cluster_tags:2\\r\\ncluster_calls_given_up:0\\r\\n\
            cluster_frames_dropped:2\\r\\ncluster_frames_of_other_clusters:0\\r\\n\
            cluster_frames_malformed:1\\r\\ncluster_frames_unreadable:1\\r\\n\
            cluster_frames_not_admitted:0\\r\\ncluster_frames_not_heeded:0\\r\\n\
            cluster_node_1_heard:0\\r\\n\\r\\n\", b\"\\r\\n\"] }]",
        outputs: Some(0),
    },
];

#[test]
fn sections(rt: HostRuntime) {
    play_alone(&rt, rt.alloc(), &SECTIONS);
}
