// What models are drawn from. With a window of 5 a load of 65535 is always enough to reach 2^64.
use states::draws::Shape;

// A function, since a constant may not hold 1..=16.
pub fn shapes() -> [(&'static str, Shape); 13] {
    [
        (
            "one centre",
            Shape {
                centres: 1..=1,
                chains: 1..=4,
                windows: 0..=15,
                loads: 1..=9,
                visits: 16,
                edges: false,
            },
        ),
        (
            "two centres",
            Shape {
                centres: 2..=2,
                chains: 1..=3,
                windows: 0..=15,
                loads: 1..=99,
                visits: 16,
                edges: false,
            },
        ),
        (
            "few centres",
            Shape {
                centres: 3..=5,
                chains: 1..=3,
                windows: 0..=6,
                loads: 1..=99,
                visits: 8,
                edges: false,
            },
        ),
        (
            "long",
            Shape {
                centres: 6..=16,
                chains: 1..=2,
                windows: 0..=15,
                loads: 1..=9,
                visits: 1,
                edges: false,
            },
        ),
        (
            "many centres",
            Shape {
                centres: 9..=16,
                chains: 1..=4,
                windows: 0..=3,
                loads: 1..=999,
                visits: 3,
                edges: false,
            },
        ),
        (
            "many chains",
            Shape {
                centres: 2..=6,
                chains: 5..=8,
                windows: 0..=1,
                loads: 1..=999,
                visits: 5,
                edges: false,
            },
        ),
        (
            "many of both",
            Shape {
                centres: 8..=16,
                chains: 4..=8,
                windows: 0..=1,
                loads: 1..=9999,
                visits: 1,
                edges: false,
            },
        ),
        (
            "all sizes",
            Shape {
                centres: 1..=16,
                chains: 1..=8,
                windows: 0..=3,
                loads: 1..=65535,
                visits: 2,
                edges: false,
            },
        ),
        (
            "heavy loads",
            Shape {
                centres: 1..=6,
                chains: 1..=3,
                windows: 0..=3,
                loads: 60000..=65535,
                visits: 8,
                edges: false,
            },
        ),
        (
            "one centre, both sides of 2^64",
            Shape {
                centres: 1..=1,
                chains: 1..=2,
                windows: 5..=15,
                loads: 1..=9,
                visits: 16,
                edges: true,
            },
        ),
        (
            "two centres, both sides",
            Shape {
                centres: 2..=2,
                chains: 1..=2,
                windows: 5..=15,
                loads: 1..=9,
                visits: 16,
                edges: true,
            },
        ),
        (
            "few centres, both sides",
            Shape {
                centres: 3..=6,
                chains: 1..=3,
                windows: 5..=7,
                loads: 1..=99,
                visits: 2,
                edges: true,
            },
        ),
        (
            "long, both sides",
            Shape {
                centres: 8..=16,
                chains: 1..=1,
                windows: 5..=12,
                loads: 1..=3,
                visits: 1,
                edges: true,
            },
        ),
    ]
}
